//! Copies of what takes no memory of its own.
ghost use Rattle.std.specs.Prelude.{◌≡◌, ◌≤◌, length};

use arrayvec::ArrayVec;
use sc_lockpass::HandlerNumber;
use sc_region::{Request, Value};

/// A copy of the request.
pub(crate) fn copy_request(request: &Request) -> Request
    ensures { result ≡ request.now }
{
    Request {
        poster: request.poster,
        target: request.target,
        errand: request.errand,
        actuals: copy_values(&request.actuals),
        is_waited: request.is_waited,
    }
}

/// Makes a request equal to another one, except for whether it is waited for.
pub(crate) fn write_request(place: &mut Request, request: &Request, is_waited: bool)
    ensures { place.new ≡ record request.now { is_waited = is_waited } }
{
    place.poster = request.poster;
    place.target = request.target;
    place.errand = request.errand;
    write_values(&mut place.actuals, request.actuals.as_slice());
    place.is_waited = is_waited;
}

/// Makes values equal to these.
pub(crate) fn write_values(place: &mut ArrayVec<Value, 16>, values: &[Value])
    requires { length values.now ≤ 16 }
    ensures { place.new ≡ record { items = values.now } }
{
    place.clear();
    if !values.is_empty() {
        let _ = place.try_extend_from_slice(values);
    }
}

/// A copy of the values.
pub fn copy_values(values: &ArrayVec<Value, 16>) -> ArrayVec<Value, 16>
    ensures { result ≡ values.now }
{
    let mut copy = ArrayVec::new();
    let _ = copy.try_extend_from_slice(values.as_slice());
    copy
}

/// A copy of the handlers.
pub fn copy_handlers(handlers: &ArrayVec<HandlerNumber, 16>) -> ArrayVec<HandlerNumber, 16>
    ensures { result ≡ handlers.now }
{
    let mut copy = ArrayVec::new();
    let _ = copy.try_extend_from_slice(handlers.as_slice());
    copy
}
