//! What the words ask for that name a view of a run.

ghost use Rattle.std.specs.Prelude.{◌≡◌, ◌<◌, ◌^◌, map, option_map, IfSome};
ghost use Rattle.std.specs.String.{string_bytes};
ghost use Rattle.tta_load.specs.Runs.{bound_of};
ghost use Rattle.tta_inspect.specs.Spans.{first_of};
ghost use Rattle.tta_inspect.specs.Request as r;

use crate::names::RunRequest;
use crate::request::Request;
use crate::view::RunView;
use tta_load::bound_of;

/// A view of a run by the names of its files, that of its input where it has one, and the word of its bound.
fn of_names<'w>(
    view: RunView,
    machine: &'w str,
    subject: &'w str,
    input: &'w str,
    stream: Option<&'w str>,
    last: &str,
) -> Option<Request<'w>>
    requires { first_of view < 2 ^ 48 }
    ensures { option_map r.asked result
        ≡ option_map (r.OfRun view machine.now subject.now input.now
        (option_map (λ s. s.now) stream.entry)) (bound_of last.now) }
{
    let bound = bound_of(last.as_bytes())?;
    Some(Request::Run(RunRequest {
        view,
        machine,
        subject,
        input,
        stream,
        bound,
    }))
}

/// A view of a run of an image or a program from data words within a bound, after which the file of an
/// input may be named.
pub fn of_run<'w>(view: RunView, words: &'w [String]) -> Option<Request<'w>>
    requires { first_of view < 2 ^ 48 }
    ensures { option_map r.asked result
        ≡ r.run_request view (map (λ w. string_bytes w) words.now) }
{
    match words {
        [machine, subject, input, last] => of_names(view, machine, subject, input, None, last),
        [machine, subject, input, last, stream] => {
            of_names(view, machine, subject, input, Some(stream.as_str()), last)
        }
        _ => None,
    }
}

/// The view of a run from a cycle on: the mark `from`, and how many cycles are made before.
fn view_from(mark: &str, first: &str) -> Option<RunView>
    ensures view { result ≡ r.view_from mark.now first.now }
    ensures early { IfSome result (λ v. first_of v < 2 ^ 48) }
{
    if mark != "from" {
        return None;
    }
    let first = bound_of(first.as_bytes())?;
    Some(RunView::PlayAfter(first))
}

/// `play`: a page that plays a run; at the end `from` may stand, and how many cycles are made before.
pub fn of_play<'w>(words: &'w [String]) -> Option<Request<'w>>
    ensures { option_map r.asked result
        ≡ r.play_request (map (λ w. string_bytes w) words.now) }
{
    match words {
        [machine, subject, input, last, mark, first] => {
            let view = view_from(mark, first)?;
            of_names(view, machine, subject, input, None, last)
        }
        [machine, subject, input, last, stream, mark, first] => {
            let view = view_from(mark, first)?;
            of_names(view, machine, subject, input, Some(stream.as_str()), last)
        }
        rest => of_run(RunView::Play, rest),
    }
}
