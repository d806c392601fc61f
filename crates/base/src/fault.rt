ghost use Rattle.std.specs.Prelude.{◌≡◌, ℕ, ◌<◌, ◌≤◌};
ghost use Rattle.base.specs.Faults.{last_number};

use crate::layer::Layer;

// Why a layer refuses: what every fault tells, whichever layer's it is.
pub trait Fault: Copy {
    ghost use Rattle.base.specs.declared.layer.Layer.{Layer};

    // the number that a listing shows
    ghost number_of: { Self → ℕ };

    // the layer that it comes from
    ghost layer_of: { Self → Layer };

    // where it came about
    ghost place_of: { Self → ℕ };

    fn number(self) -> u8
        ensures { result ≡ number_of self };

    fn layer(self) -> Layer
        ensures { result ≡ layer_of self };

    fn place(self) -> u32
        ensures { result ≡ place_of self };

    // Every number is one of the list of refusals, which begins with 1.
    ghost numbered: { (fault : Self) → (0 < number_of fault) × (number_of fault ≤ last_number) };
}
