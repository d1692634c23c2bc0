//! Laws of widths and of open choices, whatever a program does. Each is a function that does nothing, whose contract is the
//! law.
ghost use Rattle.std.specs.Prelude.{◌≡◌, ℕ, true, false, Some};
ghost use Rattle.scr_num.specs.Narrow.{IsNarrow};
ghost use Rattle.scr_num.specs.Rounding.{ceil_div, floor_div};
ghost use Rattle.scr_factors.specs.Values.{FactorValues, IsInForm};
ghost use Rattle.scr_sheet.specs.BalanceSheet.{held_total};
ghost use Rattle.scr_sheet.specs.declared.sheet.BalanceSheet.{BalanceSheet};
ghost use Rattle.scr_sheet.specs.Validity.{Valid};
ghost use Rattle.scr_nodes.specs.declared.node.Node.{Node};
ghost use Rattle.scr_nodes.specs.Live.{is_live};
ghost use Rattle.scr_rules.specs.Alternatives.{EncloseAlternatives, Outcomes};
ghost use Rattle.scr_rules.specs.Close.{close_under, is_open_choice};
ghost use Rattle.scr_rules.specs.Worked.{worked};
ghost use Rattle.scr_widths.specs.Choices.{IsNearChoice, RestsOnNearChoice};
ghost use Rattle.scr_widths.specs.Widths.{scale_of, seen_total, stated_width, width};

/// For factors in form, every valid balance sheet and every live node that has a stated width, the worked ends are no
/// further apart than it, unless the figure rests on a choice that is left open. Nor are they, rounded outward to cents, than
/// it is in cents.
pub fn widths()
    ensures grains { (factors : FactorValues) → IsInForm factors → (sheet : BalanceSheet) → Valid sheet → (node : Node)
        → is_live sheet node ≡ true → close_under factors sheet node ≡ false
        → (most : ℕ) → width (scale_of sheet) node ≡ Some most → IsNarrow most (worked factors sheet node) }
    ensures cents { (factors : FactorValues) → IsInForm factors → (sheet : BalanceSheet) → Valid sheet → (node : Node)
        → is_live sheet node ≡ true → close_under factors sheet node ≡ false
        → (most : ℕ) → stated_width sheet node ≡ Some most
        → IsNarrow most (record {
          low = floor_div (worked factors sheet node).low 1000;
          high = ceil_div (worked factors sheet node).high 1000;
        }) }
{}

/// What is held of securities and of closed funds, directly and through funds, by which widths are stated, is all that is
/// held.
pub fn held()
    ensures seen { (sheet : BalanceSheet) → Valid sheet → seen_total sheet ≡ held_total sheet }
{}

/// For every valid balance sheet, whatever outcomes the worked figures of its alternatives enclose, a choice that is left open
/// is one between alternatives that are near by these: scenarios of which two have net requirements within 32 grains for each
/// multiple of the scale, and gross ones too where the net ones are known and equal (Delegated Regulation (EU) 2015/35,
/// Article 206(2)), or bands of which an edge lies within 7 grains of the standard deviation (Article 200). A figure that
/// rests on an open choice rests on one of these. They enclose the exact outcomes (`scr_exact::laws::outcomes`).
pub fn open_choices()
    ensures near { (factors : FactorValues) (sheet : BalanceSheet) → Valid sheet → (outcomes : Outcomes)
        → EncloseAlternatives (worked factors sheet) outcomes → (node : Node)
        → is_open_choice factors sheet node ≡ true → IsNearChoice factors sheet outcomes node }
    ensures under { (factors : FactorValues) (sheet : BalanceSheet) → Valid sheet → (outcomes : Outcomes)
        → EncloseAlternatives (worked factors sheet) outcomes → (node : Node)
        → close_under factors sheet node ≡ true → RestsOnNearChoice factors sheet outcomes node }
{}
