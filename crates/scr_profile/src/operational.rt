//! What operational risk is reckoned from.

/// What the operational risk is worked from (Article 204): provisions and earned premiums, in
/// cents.
#[derive(Clone, Copy, Debug, PartialEq, Eq)]
pub struct OpInput {
    pub tpl: i64,
    pub tpul: i64,
    pub tpn: i64,
    pub el: u64,
    pub eul: u64,
    pub pel: u64,
    pub peul: u64,
    pub en: u64,
    pub pen: u64,
    pub expul: u64,
}
