//! The large sums (Delegated Regulation (EU) 2015/35, Articles 165, 168, 175, 182 to 184 and 188).
ghost use Rattle.std.specs.Prelude.{◌≡◌};
ghost use Rattle.scr_block_graph.specs.Sums as spec;
ghost use Rattle.scr_nodes.specs.declared.node.Node.TheVariants as nodes;

use scr_nodes::{
    Biometric, Direction, Measure, Node, OfCurrency, OfFund, OfGroup, OfLiability, OfSecurity,
    Whole,
};
use scr_sheet::{Class, LiabilityKind, Name, Projection, Roll};

/// A sum of one figure of each member of a list.
#[derive(Clone, Copy)]
pub enum Sum {
    /// The values of the securities of a class (Article 168).
    Class(Class),
    /// The values of the funds without components, which count as type 2 equities (Article 168(3)).
    Closed,
    /// The losses of the bonds by spread risk (Article 175).
    Spreads,
    /// The values of the securities that have a group of counterparties (Article 184(2)).
    Grouped,
    /// The values of the securities of a group (Article 182).
    Group(Name),
    /// The values of the securities in a currency (Article 188).
    Assets(Name),
    /// The losses of the securities in a currency if rates change (Article 165).
    Rates(Name, Direction),
    /// The losses by the liabilities in a currency if rates change (Article 165).
    Costs(Name, Direction),
    /// The present values of the liabilities in a currency (Article 188).
    Presents(Name),
    /// The losses by liabilities under a biometric stress (Articles 136 and 151).
    Losses(Biometric, Projection),
    /// The squares of the concentrations of all groups (Article 183).
    Squares,
}

impl Sum {
    /// The member list over which the sum runs.
    pub fn roll(&self) -> Roll
        ensures { result ≡ spec.roll_of self.now }
    {
        match self {
            Sum::Class(class) => Roll::Class(*class),
            Sum::Closed => Roll::Closed,
            Sum::Spreads => Roll::Bonds,
            Sum::Grouped => Roll::Grouped,
            Sum::Group(name) => Roll::Group(*name),
            Sum::Assets(currency) => Roll::Assets(*currency),
            Sum::Rates(currency, _) => Roll::Flows(*currency),
            Sum::Costs(currency, _) | Sum::Presents(currency) => Roll::Lines(*currency),
            Sum::Losses(biometric, projection) => Roll::Losses(kind(*biometric), *projection),
            Sum::Squares => Roll::Groups,
        }
    }

    /// The figure of a member that the sum adds up.
    pub fn member(&self, name: Name) -> Node
        ensures { result ≡ spec.member_of self.now name }
    {
        match self {
            Sum::Closed => Node::Fund(name, OfFund::Total),
            Sum::Spreads => Node::Security(name, OfSecurity::Spread),
            Sum::Rates(_, direction) => Node::Security(name, OfSecurity::Rate(*direction)),
            Sum::Costs(_, direction) => Node::Liability(name, OfLiability::Rate(*direction)),
            Sum::Presents(_) => Node::Liability(name, OfLiability::Present),
            Sum::Losses(_, projection) => Node::Liability(name, OfLiability::Loss(*projection)),
            Sum::Squares => Node::Group(name, OfGroup::ConcentrationSquare),
            Sum::Class(_) | Sum::Grouped | Sum::Group(_) | Sum::Assets(_) => {
                Node::Security(name, OfSecurity::Total)
            }
        }
    }

    /// One figure that is computed from the sum. A currency's scenarios of rise and fall are computed from one pair of sums, and
    /// the rise stands for both.
    pub fn reader(&self) -> Node
        ensures { result ≡ spec.reader_of self.now }
    {
        match self {
            Sum::Class(class) => Node::Whole(Whole::ClassSum(*class)),
            Sum::Closed => Node::Whole(Whole::ClassSum(Class::Type2Equity)),
            Sum::Spreads => Node::Whole(Whole::Spread),
            Sum::Grouped => Node::Whole(Whole::Assets),
            Sum::Group(name) => Node::Group(*name, OfGroup::Total),
            Sum::Assets(currency) | Sum::Presents(currency) => {
                let rise = OfCurrency::Scenario(Direction::Up, Measure::Gross);
                Node::Currency(*currency, rise)
            }
            Sum::Rates(currency, direction) | Sum::Costs(currency, direction) => {
                Node::Currency(*currency, OfCurrency::Loss(*direction))
            }
            Sum::Losses(biometric, projection) => {
                Node::Whole(Whole::BioScenario(*biometric, *projection, Measure::Gross))
            }
            Sum::Squares => Node::Whole(Whole::Concentration),
        }
    }
}

/// The liabilities on which the stresses of the kind fall (Articles 136 and 151).
fn kind(biometric: Biometric) -> LiabilityKind
    ensures { result ≡ spec.kind_of biometric }
{
    match biometric {
        Biometric::Life => LiabilityKind::Life,
        Biometric::Health => LiabilityKind::Health,
    }
}

/// The large sum from which a figure is computed, the first if there are two; `None` for most figures.
pub fn first_sum(node: &Node) -> Option<Sum>
    ensures { result ≡ spec.first_sum node.now }
{
    match node {
        Node::Group(name, OfGroup::Total) => Some(Sum::Group(*name)),
        Node::Currency(currency, what) => first_of_currency(*currency, *what),
        Node::Whole(what) => first_of_whole(*what),
        _ => None,
    }
}

fn first_of_currency(currency: Name, what: OfCurrency) -> Option<Sum>
    ensures { result ≡ spec.first_sum (nodes.Currency currency what) }
{
    match what {
        OfCurrency::Loss(direction) => Some(Sum::Rates(currency, direction)),
        OfCurrency::Scenario(_, Measure::Gross) => Some(Sum::Assets(currency)),
        _ => None,
    }
}

fn first_of_whole(what: Whole) -> Option<Sum>
    ensures { result ≡ spec.first_sum (nodes.Whole what) }
{
    match what {
        Whole::ClassSum(class) => Some(Sum::Class(class)),
        Whole::Spread => Some(Sum::Spreads),
        Whole::Assets => Some(Sum::Grouped),
        Whole::Concentration => Some(Sum::Squares),
        Whole::BioScenario(biometric, projection, Measure::Gross) => {
            Some(Sum::Losses(biometric, projection))
        }
        _ => None,
    }
}

/// The second of two large sums from which a figure is computed; `None` if there are not two.
pub fn second_sum(node: &Node) -> Option<Sum>
    ensures { result ≡ spec.second_sum node.now }
{
    match node {
        Node::Currency(currency, OfCurrency::Loss(direction)) => {
            Some(Sum::Costs(*currency, *direction))
        }
        Node::Currency(currency, OfCurrency::Scenario(_, Measure::Gross)) => {
            Some(Sum::Presents(*currency))
        }
        Node::Whole(Whole::ClassSum(Class::Type2Equity)) => Some(Sum::Closed),
        _ => None,
    }
}
