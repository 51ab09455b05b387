// A state that is not refused.
ghost use Rattle.std.specs.Prelude.{◌≡◌, true, false, IfOk, IfErr};
ghost use Rattle.refusals.specs.Refusals.{refusal_number};
ghost use Rattle.converter_state.specs.Start.{is_state};

use crate::state::{State, is_state};
use refusals::{Refusal, Refused};

/// A state that no call refuses as `BadState`.
#[derive(Clone, Copy)]
pub struct Accepted {
    pub state: State,
    pub ghost sound: { is_state state ≡ true },
}

impl State {
    /// The state itself, as one that is not refused.
    ///
    /// Refused as `BadState` where `is_state` says no; the state is handed back as it came.
    pub fn accepted(self) -> Result<Accepted, Refused<State>>
        ensures ok { IfOk result (λ a. a.state ≡ self) }
        ensures state { IfErr result (λ r. r.value ≡ self) }
        ensures number { IfErr result (λ r. refusal_number r.refusal ≡ 5) }
        ensures why { IfErr result (λ r. is_state self ≡ false) }
    {
        if is_state(self) {
            Ok(Accepted { state: self })
        } else {
            Err(Refused {
                value: self,
                refusal: Refusal::BadState,
            })
        }
    }
}
