//! Laws of the exact figures of a balance sheet, whatever a program does. Each is a function that does nothing, whose
//! contract is the law.
ghost use Rattle.std.specs.Prelude.{◌≡◌, true, ℕ, pos, List, [], ◌∷◌, Some, IsBitSet};
ghost use Rattle.scr_num.specs.Enclosure.{Encloses};
ghost use Rattle.scr_num.specs.Figure.{Figure, Frac};
ghost use Rattle.scr_num.specs.Rounding.{Ends};
ghost use Rattle.scr_agg.specs.Choice.{chosen};
ghost use Rattle.scr_factors.specs.Values.{FactorValues, IsInForm};
ghost use Rattle.scr_profile.specs.declared.default_class.DefaultClass.{DefaultClass};
ghost use Rattle.scr_sheet.specs.declared.sheet.BalanceSheet.{BalanceSheet};
ghost use Rattle.scr_sheet.specs.Validity.{Valid};
ghost use Rattle.scr_nodes.specs.declared.node.Alternatives.TheVariants as alternatives;
ghost use Rattle.scr_nodes.specs.declared.node.Biometric.TheVariants as biometrics;
ghost use Rattle.scr_nodes.specs.declared.node.Direction.TheVariants as directions;
ghost use Rattle.scr_nodes.specs.declared.node.Node.{Node};
ghost use Rattle.scr_nodes.specs.declared.node.Node.TheVariants as nodes;
ghost use Rattle.scr_nodes.specs.declared.node.OfCurrency.TheVariants as of_currencies;
ghost use Rattle.scr_nodes.specs.declared.node.Whole.TheVariants as wholes;
ghost use Rattle.scr_nodes.specs.Live.{is_live};
ghost use Rattle.scr_rules.specs.Alternatives.{EncloseAlternatives};
ghost use Rattle.scr_rules.specs.DefaultGrains.{group_grains, class_grains, class_square_grains};
ghost use Rattle.scr_rules.specs.Rules.{amount_of};
ghost use Rattle.scr_rules.specs.Worked.{worked};
ghost use Rattle.scr_exact.specs.Covering.{AreCovering, AreNotNegative, is_part_of_market, is_part_of_modules};
ghost use Rattle.scr_exact.specs.DefaultExact.{group_loss, class_loss, class_square, default_band};
ghost use Rattle.scr_exact.specs.Exact.{exact, exact_outcomes, unit_of};
ghost use Rattle.scr_exact.specs.InterestExact.{scenario_of};
ghost use Rattle.scr_exact.specs.LifeExact.{lapse_outcomes};
ghost use Rattle.scr_exact.specs.MarketExact.{change_outcomes};

/// For factors in form, every valid balance sheet and every live node with a figure, ends that cover their rules, at whatever
/// discounts that enclose, and of which none that is a part of a root is below 0, enclose the exact figure, whoever found
/// them. The worked ends are such.
pub fn covering()
    ensures encloses { (factors : FactorValues) → IsInForm factors → (sheet : BalanceSheet) → Valid sheet
        → (found : Node → Ends) → AreCovering factors sheet found
        → AreNotNegative is_part_of_market found → AreNotNegative is_part_of_modules found
        → (node : Node) → is_live sheet node ≡ true → (figure : Figure) → exact factors sheet node ≡ Some figure
        → Encloses (unit_of node) (found node).low (found node).high figure }
    ensures worked { (factors : FactorValues) (sheet : BalanceSheet) → Valid sheet
        → AreCovering factors sheet (worked factors sheet) }
    ensures market { (factors : FactorValues) (sheet : BalanceSheet) → Valid sheet
        → AreNotNegative is_part_of_market (worked factors sheet) }
    ensures modules { (factors : FactorValues) → IsInForm factors → (sheet : BalanceSheet) → Valid sheet
        → AreNotNegative is_part_of_modules (worked factors sheet) }
{}

/// For factors in form, every valid balance sheet and every live node with a figure, the worked ends enclose the exact
/// figure. Where there is a choice, the mask has the bit of the alternative that decides by the exact requirements.
pub fn enclosure()
    ensures encloses { (factors : FactorValues) → IsInForm factors → (sheet : BalanceSheet) → Valid sheet → (node : Node)
        → is_live sheet node ≡ true → (figure : Figure) → exact factors sheet node ≡ Some figure
        → Encloses (unit_of node) (worked factors sheet node).low (worked factors sheet node).high figure }
    ensures interest { (factors : FactorValues) (sheet : BalanceSheet) → Valid sheet
        → IsBitSet (amount_of (worked factors sheet (nodes.Whole (wholes.Choice alternatives.Interest))))
        (chosen (scenario_of sheet directions.Up ∷ scenario_of sheet directions.Down ∷ [])) }
    ensures currency { (factors : FactorValues) (sheet : BalanceSheet) → Valid sheet → (currency : List ℕ)
        → IsBitSet (amount_of (worked factors sheet (nodes.Currency currency of_currencies.Choice)))
        (chosen (change_outcomes sheet currency)) }
{}

/// For every valid balance sheet the worked figures of the alternatives of each choice enclose what these come to exactly.
pub fn outcomes()
    ensures enclosed { (factors : FactorValues) (sheet : BalanceSheet) → Valid sheet
        → EncloseAlternatives (worked factors sheet) (exact_outcomes sheet) }
{}

/// For every valid balance sheet the mask of a choice of lapses has the bit of the alternative that decides by the exact
/// requirements after absorption (Delegated Regulation (EU) 2015/35, Articles 142(1), 159(1) and 206(2)).
pub fn lapses()
    ensures life { (factors : FactorValues) (sheet : BalanceSheet) → Valid sheet
        → IsBitSet (amount_of (worked factors sheet (nodes.Whole (wholes.Choice alternatives.LifeLapse))))
        (chosen (lapse_outcomes sheet biometrics.Life)) }
    ensures health { (factors : FactorValues) (sheet : BalanceSheet) → Valid sheet
        → IsBitSet (amount_of (worked factors sheet (nodes.Whole (wholes.Choice alternatives.HealthLapse))))
        (chosen (lapse_outcomes sheet biometrics.Health)) }
{}

/// For every valid balance sheet the mask of the bands of default risk has the bit of the band that decides by the exact
/// variance (Article 200).
pub fn default_bands()
    ensures decisive { (factors : FactorValues) (sheet : BalanceSheet) → Valid sheet
        → IsBitSet (amount_of (worked factors sheet (nodes.Whole wholes.DefaultBand))) (default_band sheet) }
{}

/// The losses given default in grains, of which the variance is worked out, are exactly those of Article 192.
pub fn default_losses()
    ensures group { (sheet : BalanceSheet) (name : List ℕ)
        → Encloses 1000 (pos (group_grains sheet name)) (pos (group_grains sheet name)) (Frac (group_loss sheet name)) }
    ensures class { (sheet : BalanceSheet) (class : DefaultClass)
        → Encloses 1000 (pos (class_grains sheet class)) (pos (class_grains sheet class)) (Frac (class_loss sheet class)) }
    ensures squares { (sheet : BalanceSheet) (class : DefaultClass)
        → Encloses 1_000_000 (pos (class_square_grains sheet class)) (pos (class_square_grains sheet class))
        (Frac (class_square sheet class)) }
{}
