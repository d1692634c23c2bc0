//! The rows of the drawing.
ghost use Rattle.std.specs.Prelude.{◌≡◌, ◌<◌, length, map, slice_get, Some};
ghost use Rattle.scr_drawing.specs.Rows.{IsWithin, rows, seen};

/// How many rows there are.
pub(crate) const ROW_COUNT: u32 = 33;

/// A row of the drawing: what it shows, how far in it stands, and the numbers of the cells that it shows, gross and net;
/// or of the one cell that takes something off.
#[derive(Clone, Copy)]
pub(crate) struct Row {
    pub(crate) label: &'static str,
    pub(crate) level: u32,
    pub(crate) gross: u32,
    pub(crate) net: u32,
    pub(crate) takes: bool,
}

const ROWS: [Row; 33] = [
    Row {
        label: "Solvency Capital Requirement",
        level: 0,
        gross: 16,
        net: 16,
        takes: false,
    },
    Row {
        label: "Basic SCR",
        level: 0,
        gross: 11,
        net: 12,
        takes: false,
    },
    Row {
        label: "diversification of the modules",
        level: 1,
        gross: 10,
        net: 10,
        takes: true,
    },
    Row {
        label: "market risk",
        level: 1,
        gross: 0,
        net: 1,
        takes: false,
    },
    Row {
        label: "interest rate risk",
        level: 2,
        gross: 21,
        net: 22,
        takes: false,
    },
    Row {
        label: "equity risk",
        level: 2,
        gross: 27,
        net: 28,
        takes: false,
    },
    Row {
        label: "property risk",
        level: 2,
        gross: 29,
        net: 30,
        takes: false,
    },
    Row {
        label: "spread risk",
        level: 2,
        gross: 31,
        net: 32,
        takes: false,
    },
    Row {
        label: "market risk concentrations",
        level: 2,
        gross: 33,
        net: 34,
        takes: false,
    },
    Row {
        label: "currency risk",
        level: 2,
        gross: 35,
        net: 36,
        takes: false,
    },
    Row {
        label: "counterparty default risk",
        level: 1,
        gross: 2,
        net: 3,
        takes: false,
    },
    Row {
        label: "type 1 exposures",
        level: 2,
        gross: 39,
        net: 39,
        takes: false,
    },
    Row {
        label: "type 2 exposures",
        level: 2,
        gross: 40,
        net: 40,
        takes: false,
    },
    Row {
        label: "life underwriting risk",
        level: 1,
        gross: 4,
        net: 5,
        takes: false,
    },
    Row {
        label: "mortality risk",
        level: 2,
        gross: 43,
        net: 44,
        takes: false,
    },
    Row {
        label: "longevity risk",
        level: 2,
        gross: 45,
        net: 46,
        takes: false,
    },
    Row {
        label: "disability and morbidity risk",
        level: 2,
        gross: 47,
        net: 48,
        takes: false,
    },
    Row {
        label: "expense risk",
        level: 2,
        gross: 49,
        net: 50,
        takes: false,
    },
    Row {
        label: "revision risk",
        level: 2,
        gross: 51,
        net: 52,
        takes: false,
    },
    Row {
        label: "lapse risk",
        level: 2,
        gross: 59,
        net: 60,
        takes: false,
    },
    Row {
        label: "life catastrophe risk",
        level: 2,
        gross: 61,
        net: 62,
        takes: false,
    },
    Row {
        label: "health underwriting risk",
        level: 1,
        gross: 6,
        net: 7,
        takes: false,
    },
    Row {
        label: "similar to life",
        level: 2,
        gross: 83,
        net: 84,
        takes: false,
    },
    Row {
        label: "not similar to life",
        level: 2,
        gross: 87,
        net: 87,
        takes: false,
    },
    Row {
        label: "health catastrophe risk",
        level: 2,
        gross: 88,
        net: 89,
        takes: false,
    },
    Row {
        label: "non-life underwriting risk",
        level: 1,
        gross: 8,
        net: 8,
        takes: false,
    },
    Row {
        label: "premium and reserve risk",
        level: 2,
        gross: 92,
        net: 92,
        takes: false,
    },
    Row {
        label: "lapse risk",
        level: 2,
        gross: 93,
        net: 93,
        takes: false,
    },
    Row {
        label: "catastrophe risk",
        level: 2,
        gross: 96,
        net: 96,
        takes: false,
    },
    Row {
        label: "intangible asset risk",
        level: 1,
        gross: 9,
        net: 9,
        takes: false,
    },
    Row {
        label: "operational risk",
        level: 0,
        gross: 15,
        net: 15,
        takes: false,
    },
    Row {
        label: "adjustment for technical provisions",
        level: 0,
        gross: 13,
        net: 13,
        takes: true,
    },
    Row {
        label: "adjustment for deferred taxes",
        level: 0,
        gross: 14,
        net: 14,
        takes: true,
    },
];

/// The row of this number, from 0.
#[tactic(auto, unfolding(crate::specs::Rows::rows))]
pub(crate) fn row_at(k: u32) -> &'static Row
    requires { k < ROW_COUNT }
    ensures row { slice_get rows k ≡ Some (seen result.now) }
    ensures within { IsWithin (seen result.now) }
{
    row_in(&ROWS, k)
}

fn row_in(rows: &[Row], k: u32) -> &Row
    requires { k < length rows.now }
    ensures { slice_get (map seen rows.now) k ≡ Some (seen result.now) }
{
    &rows[k as usize]
}
