//! Laws of the figures of a balance sheet, whatever a program does. Each is a function that does nothing, whose contract is
//! the law.
ghost use Rattle.std.specs.Prelude.{◌≡◌, ◌||◌, ◌++◌, ◌∷◌, ◌^◌, true, ℕ, pos, List, [], length, map};
ghost use Rattle.std.specs.List.{list_any};
ghost use Rattle.scr_num.specs.Amounts.{IsAmount};
ghost use Rattle.scr_num.specs.Rounding.{Ends, exact_ends};
ghost use Rattle.scr_num.specs.Sizes.{IsWithin};
ghost use Rattle.scr_num.specs.Sums.{sum_ends};
ghost use Rattle.scr_profile.specs.declared.limits.TheConstants.{MAX_HELD};
ghost use Rattle.scr_factors.specs.Values.{FactorValues, IsInForm};
ghost use Rattle.scr_tables.specs.Tables.{has_row};
ghost use Rattle.scr_sheet.specs.BalanceSheet.{position_name, stake_name};
ghost use Rattle.scr_sheet.specs.Totals.{total_of};
ghost use Rattle.scr_sheet.specs.declared.sheet.BalanceSheet.{BalanceSheet};
ghost use Rattle.scr_sheet.specs.Validity.{Valid};
ghost use Rattle.scr_nodes.specs.declared.node.Node.{Node};
ghost use Rattle.scr_nodes.specs.declared.node.Node.TheVariants as nodes;
ghost use Rattle.scr_nodes.specs.declared.node.OfFund.TheVariants as of_funds;
ghost use Rattle.scr_nodes.specs.declared.node.OfSecurity.TheVariants as of_securities;
ghost use Rattle.scr_nodes.specs.Live.{is_live};
ghost use Rattle.scr_nodes.specs.Own.{Own};
ghost use Rattle.scr_nodes.specs.Own.Own.{Foreign as foreign};
ghost use Rattle.scr_nodes.specs.OwnOf.{own_of};
ghost use Rattle.scr_nodes.specs.declared.node.Direction.{Direction};
ghost use Rattle.scr_nodes.specs.Sources.{sources_of};
ghost use Rattle.scr_rules.specs.Close.{is_open_choice, close_under};
ghost use Rattle.scr_rules.specs.Fits.{Fits};
ghost use Rattle.scr_discounts.specs.Discounts.{CurrencyDiscounts};
ghost use Rattle.scr_discounts.specs.Kept.{all_discounts, AreDiscountsOf};
ghost use Rattle.scr_rules.specs.BySums.{is_of_sum};
ghost use Rattle.scr_rules.specs.MarketFits.{FitsForeign};
ghost use Rattle.scr_rules.specs.MarketRules.{foreign_ends};
ghost use Rattle.scr_rules.specs.Rules.{amount_of, rule};
ghost use Rattle.scr_rules.specs.Worked.{node_rule, worked};

use scr_discounts::Curves;
use scr_nodes::Node;

/// For every valid balance sheet the worked figure of each node is its rule on the worked figures of its sources, and
/// nothing else obeys this on all live nodes. A figure rests on an open choice exactly where it is one or one of its sources
/// does.
pub fn recursion()
    ensures equation { (factors : FactorValues) (sheet : BalanceSheet) → Valid sheet → (node : Node)
        → worked factors sheet node ≡ node_rule factors sheet node (map (worked factors sheet) (sources_of sheet node)) }
    ensures only { (factors : FactorValues) (sheet : BalanceSheet) → Valid sheet → (found : Node → Ends)
        → ((node : Node) → is_live sheet node ≡ true
        → found node ≡ node_rule factors sheet node (map found (sources_of sheet node)))
        → (node : Node) → is_live sheet node ≡ true → found node ≡ worked factors sheet node }
    ensures close { (factors : FactorValues) (sheet : BalanceSheet) → Valid sheet → (node : Node)
        → close_under factors sheet node ≡ (is_open_choice factors sheet node
        || list_any (λ b. b) (map (close_under factors sheet) (sources_of sheet node))) }
{}

/// The worked total of a fund or a security is what is held of it, directly and through funds (Article 84 of Delegated
/// Regulation (EU) 2015/35).
pub fn totals()
    ensures fund { (factors : FactorValues) (sheet : BalanceSheet) → Valid sheet → (name : List ℕ)
        → has_row stake_name name sheet.funds ≡ true
        → worked factors sheet (nodes.Fund name of_funds.Total) ≡ exact_ends (pos (total_of sheet name)) }
    ensures security { (factors : FactorValues) (sheet : BalanceSheet) → Valid sheet → (name : List ℕ)
        → has_row position_name name sheet.securities ≡ true
        → worked factors sheet (nodes.Security name of_securities.Total) ≡ exact_ends (pos (total_of sheet name)) }
{}

/// For factors in form, every valid balance sheet and every live node the rule fits the node's own data and the worked
/// figures of its sources: it keeps to 128 bits. The discounts of all currencies are discounts at their rates.
pub fn ranges()
    ensures fits { (factors : FactorValues) → IsInForm factors → (sheet : BalanceSheet) → Valid sheet → (node : Node)
        → is_live sheet node ≡ true
        → Fits (own_of factors sheet node) (map (worked factors sheet) (sources_of sheet node)) }
    ensures discounts { (sheet : BalanceSheet) → Valid sheet → AreDiscountsOf sheet.curves (all_discounts sheet) }
{}

/// The rules of large sums see the figures of their sources by the sum alone, and that of a foreign currency by what is held of its
/// securities and what is owed in it. So they may be regrouped, and where a rule fits the figures it fits their sums.
pub fn sums()
    ensures one { (own : Own) (discounts : CurrencyDiscounts) (figures others : List Ends) → is_of_sum own ≡ true
        → sum_ends figures ≡ sum_ends others → rule own discounts figures ≡ rule own discounts others }
    ensures two { (direction : Direction) (discounts : CurrencyDiscounts) (held owed : List Ends)
        → rule (foreign direction (length held)) discounts (held ++ owed)
        ≡ foreign_ends direction (amount_of (sum_ends held)) (sum_ends owed) }
    ensures fits_one { (own : Own) (figures others : List Ends) → is_of_sum own ≡ true → Fits own (figures ++ others)
        → Fits own (sum_ends figures ∷ sum_ends others ∷ []) }
    ensures fits_two { (held owed : List Ends) → FitsForeign (length held) (held ++ owed)
        → IsAmount MAX_HELD (sum_ends held) × IsWithin (10 ^ 33) (sum_ends owed) }
{}

/// Threads may share nodes, and the discounts of all currencies.
pub fn sharing() {
    shared::<Curves>();
    shared::<Node>();
}

// Compiles only where threads may share a `T` and hand it on.
fn shared<T: Send + Sync>() {}
