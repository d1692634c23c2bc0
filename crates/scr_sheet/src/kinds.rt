//! The projections that a kind of liability has.
ghost use Rattle.std.specs.Prelude.{◌≡◌};
ghost use Rattle.scr_sheet.specs.CashFlows.{has_projection, suits};

use crate::{LiabilityFlows, LiabilityKind, PROJECTIONS, Projection};

impl LiabilityKind {
    /// Liabilities of this kind have the projection: the best estimate for each, the biometric stresses for life
    /// (Articles 137 to 142) and for health similar to life (Articles 152 to 159), the catastrophe for life alone
    /// (Article 143).
    pub fn has(self, projection: Projection) -> bool
        ensures { result ≡ has_projection self projection }
    {
        match (self, projection) {
            (_, Projection::Base) | (LiabilityKind::Life, _) => true,
            (LiabilityKind::Health, Projection::Catastrophe) | (LiabilityKind::Other, _) => false,
            (LiabilityKind::Health, _) => true,
        }
    }

    /// There are flows under no projection that the kind lacks.
    pub fn suits(self, flows: &LiabilityFlows) -> bool
        ensures { result ≡ suits self flows.now }
    {
        PROJECTIONS
            .iter()
            .all(|p| self.has(*p) || flows.under(*p).as_slice().is_empty())
    }
}
