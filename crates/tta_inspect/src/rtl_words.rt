//! What the words ask for that follow `rtl`.

ghost use Rattle.std.specs.Prelude.{◌≡◌, codes, map, option_map};
ghost use Rattle.std.specs.Str.{bytes_eq};
ghost use Rattle.std.specs.String.{string_bytes};
ghost use Rattle.tta_inspect.specs.Request as r;

use crate::depths::are_depths;
use crate::marks::{marked_once, marked_thrice, marked_twice, plain_module};
use crate::names::{NetRequest, RtlRequest};
use crate::request::Request;
use crate::view::CircuitView;
use tta_net_command::is_net;

/// The request of the circuit of a machine with code, by how it is made.
fn of_view<'w>(machine: &'w str, subject: &'w str, view: Option<CircuitView>) -> Option<Request<'w>>
    ensures { option_map r.asked result
        ≡ option_map (λ v. r.OfRtl v machine.now subject.now) view }
{
    let view = view?;
    Some(Request::Rtl(RtlRequest {
        view,
        machine,
        subject,
    }))
}

/// Whether a word asks for the circuits of cores.
fn is_net_word(word: &str) -> bool
    ensures { result ≡ bytes_eq word.now (codes "net") }
{
    word == "net"
}

/// The circuits of cores that are joined by queues.
fn of_net<'w>(words: &'w [String]) -> Option<Request<'w>>
    ensures { option_map r.asked result
        ≡ r.net_request (map (λ w. string_bytes w) words.now) }
{
    match words {
        [kind, depths, links, names @ ..] => {
            if !is_net(names.len()) {
                return None;
            }
            let count = (names.len() / 3) as u8;
            if !(is_net_word(kind) && are_depths(count, depths)) {
                return None;
            }
            Some(Request::Net(NetRequest {
                depths,
                links,
                names,
            }))
        }
        _ => None,
    }
}

/// `rtl`: a machine and an image or a program, and up to three words that say how the circuit is made; or
/// the circuits of cores.
pub fn of_rtl<'w>(words: &'w [String]) -> Option<Request<'w>>
    ensures { option_map r.asked result
        ≡ r.rtl_request (map (λ w. string_bytes w) words.now) }
{
    match words {
        [machine, subject] => of_view(machine, subject, Some(plain_module())),
        [machine, subject, first] => of_view(machine, subject, marked_once(first)),
        [machine, subject, first, second] => {
            of_view(machine, subject, marked_twice(first, second))
        }
        [machine, subject, first, second, third] => {
            of_view(machine, subject, marked_thrice(first, second, third))
        }
        rest => of_net(rest),
    }
}
