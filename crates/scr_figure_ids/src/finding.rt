//! The id of a figure, and the figure of an id.
ghost use Rattle.std.specs.Prelude.{◌≡◌, ℕ, ◌<◌, IfSome, IsNone, Some, length, slice_get};
ghost use Rattle.scr_figure_ids.specs.Families.{family_of, name_of, table_of};
ghost use Rattle.scr_figure_ids.specs.Numbers.{IsNumbered, StandsAt, is_of_sheet, names_in};
ghost use Rattle.scr_figure_ids.specs.Records.{place_in};
ghost use Rattle.scr_ids.specs.Ranges.{stride};
ghost use Rattle.scr_nodes.specs.declared.node.Node.{Node};

use crate::edits::place_of;
use crate::families::{currency_at, family, group_at, liability_at, security_at, table};
use crate::wholes::whole_at;
use scr_ids::{Place, Places, Table};
use scr_nodes::{Node, OfFund};
use scr_sheet::{BalanceSheet, Row};

/// The id of a figure, by one look-up of its row; `None` if the sheet has no such row, or no sheet can have the figure.
#[inline(always)]
pub fn find(places: &Places, sheet: &BalanceSheet, node: &Node) -> Option<u32>
    requires { IsNumbered sheet.now places.now }
    ensures there { IfSome result (λ number. StandsAt sheet.now places.now node.now number) }
    ensures absent { IsNone result → (number : ℕ) → StandsAt sheet.now places.now node.now number → ⊥ }
{
    let table = table(node);
    let family = family(node);
    if family >= table.stride() {
        return None;
    }
    let row = row_place(sheet, node)?;
    Some(places.first(table, row) + family)
}

/// The figure of an id, by two reads and the row's name; `None` if no row of the sheet has the id.
pub fn node_at(places: &Places, sheet: &BalanceSheet, number: u32) -> Option<Node>
    requires { IsNumbered sheet.now places.now }
    ensures there { IfSome result (λ node. StandsAt sheet.now places.now node number) }
    ensures absent { IsNone result → (node : Node) → StandsAt sheet.now places.now node number → ⊥ }
{
    let place = places.at(number)?;
    // Brings the invariant into sight: no id is of two rows.
    let _size = places.len();
    if !is_of_sheet(place.table) {
        return None;
    }
    Some(node_of(sheet, &place))
}

/// The index of the figure's row in its table.
fn row_place(sheet: &BalanceSheet, node: &Node) -> Option<usize>
    ensures { result ≡ place_in (name_of node.now) (names_in sheet.now (table_of node.now)) }
{
    match node {
        Node::Fund(name, _) => place_of(&sheet.funds, name),
        Node::Security(name, _) => place_of(&sheet.securities, name),
        Node::Liability(name, _) => place_of(&sheet.liabilities, name),
        Node::Currency(name, _) => place_of(&sheet.curves, name),
        Node::Group(name, _) => place_of(&sheet.groups, name),
        Node::Whole(_) => Some(0),
    }
}

/// Whether the table's rows are rows of the sheet.
fn is_of_sheet(table: Table) -> bool
    ensures { result ≡ is_of_sheet table }
{
    !matches!(table, Table::Part)
}

/// The figure with this family of the row at this index.
fn node_of(sheet: &BalanceSheet, place: &Place) -> Node
    requires row { place.now.row < length (names_in sheet.now place.now.table) }
    requires family { place.now.family < stride place.now.table }
    ensures table { table_of result ≡ place.now.table }
    ensures family { family_of result ≡ place.now.family }
    ensures row { slice_get (names_in sheet.now place.now.table) place.now.row ≡ Some (name_of result) }
{
    let row = place.row;
    match place.table {
        Table::Whole => Node::Whole(whole_at(place.family)),
        Table::Fund => Node::Fund(sheet.funds.at(row).name(), OfFund::Total),
        Table::Security => {
            Node::Security(sheet.securities.at(row).name(), security_at(place.family))
        }
        Table::Liability => {
            Node::Liability(sheet.liabilities.at(row).name(), liability_at(place.family))
        }
        Table::Group => Node::Group(sheet.groups.at(row).name(), group_at(place.family)),
        Table::Currency => Node::Currency(sheet.curves.at(row).name(), currency_at(place.family)),
        Table::Part => unreachable!(),
    }
}
