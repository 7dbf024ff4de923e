//! The held requests.

ghost use Rattle.std.specs.Prelude.{◌≡◌, ◌<◌, IfNone, IfSome, find, position, length, None, Some};
ghost use Rattle.std.specs.List.{slice_get, slice_set, slice_index_or};
ghost use Rattle.std.specs.Option.{option_copied};
ghost use Rattle.sip_served.specs.State.{changed_at, has_id};
ghost use Rattle.sip_served.specs.declared.held_request.HeldRequest.{HeldRequest};

use crate::held_request::HeldRequest;
use sip_message::Id;

/// The held request of this id, the first if there are several.
pub(crate) fn held_request(requests: &[HeldRequest], id: Id) -> Option<&HeldRequest>
    ensures { option_copied result ≡ find (has_id id) requests.now }
{
    requests.iter().find(|held| is_of(held, id))
}

/// The place of the request with this id among the held ones.
pub(crate) fn place_of(requests: &[HeldRequest], id: Id) -> Option<usize>
    ensures none { IfNone result ((change : HeldRequest → HeldRequest)
        → changed_at id change requests.now ≡ requests.now) }
    ensures unknown { IfNone result (find (has_id id) requests.now ≡ None) }
    ensures within { IfSome result (λ index. index < length requests.now) }
    ensures found { IfSome result (λ index. find (has_id id) requests.now
        ≡ slice_get requests.now index) }
    ensures changed { IfSome result (λ index. (change : HeldRequest → HeldRequest)
        (held : HeldRequest) → slice_get requests.now index ≡ Some held
        → changed_at id change requests.now ≡ slice_set requests.now index (change held)) }
{
    first_of(requests, id)
}

fn first_of(requests: &[HeldRequest], id: Id) -> Option<usize>
    ensures place { result ≡ position (has_id id) requests.now }
    ensures within { IfSome result (λ index. index < length requests.now) }
{
    requests.iter().position(|held| is_of(held, id))
}

fn is_of(held: &HeldRequest, id: Id) -> bool
    ensures { result ≡ has_id id held.now }
{
    held.id == id
}
