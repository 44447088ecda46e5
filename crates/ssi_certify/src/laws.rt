//! Laws of certificates of snapshot histories, each proved as the contract of a function that does nothing.

ghost use Rattle.ssi_certify.specs.Laws.{SafeHistoriesAreAccepted};

use adya_dsg::certified_iff_no_phenomenon;
pub use snapshot_histories::laws::{cycles_are_dangerous, safe_histories_have_no_cycle};

/// A checked snapshot history without a dangerous structure is accepted with some certificate. So it is serializable
/// (Fekete, Liarokapis, O'Neil, O'Neil and Shasha 2005).
pub fn safe_histories_are_accepted()
    ensures { SafeHistoriesAreAccepted }
{
    safe_histories_have_no_cycle();
    certified_iff_no_phenomenon();
}
