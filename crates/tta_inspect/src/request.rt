//! What the words of a command line ask for. A name is that of a file.

ghost use Rattle.std.specs.Prelude.{◌≡◌, ◌∷◌, [], map, option_map};
ghost use Rattle.std.specs.String.{string_bytes};
ghost use Rattle.tta_inspect.specs.Request as r;

use crate::names::{
    CostRequest, InfoRequest, MachineRequest, NetRequest, PictureRequest, PromptRequest,
    RtlRequest, RunRequest, StagesRequest,
};
use crate::rtl_words::of_rtl;
use crate::run_words::{of_play, of_run};
use crate::view::{RunView, StagesView, View};

/// What is asked for: a view of a machine, what is told of an image for a machine, the picture of such
/// code or of that of a program, a view of a run of it, a session at a prompt over a run of code, a view
/// of the stages of a program for a machine, the circuit of a machine with the code of an image or of a
/// program, what such a circuit is made of, or the circuits of cores that are joined by queues.
#[derive(Clone, Copy)]
pub enum Request<'w> {
    Machine(MachineRequest<'w>),
    Info(InfoRequest<'w>),
    Picture(PictureRequest<'w>),
    Run(RunRequest<'w>),
    Prompt(PromptRequest<'w>),
    Stages(StagesRequest<'w>),
    Rtl(RtlRequest<'w>),
    Cost(CostRequest<'w>),
    Net(NetRequest<'w>),
}

/// Whether a word is the name of a command that `show` carries out.
fn is_name(name: &str) -> bool
    ensures { result ≡ r.is_named (name.now ∷ []) }
{
    name == "picture"
        || name == "info"
        || name == "cost"
        || name == "profile"
        || name == "play"
        || name == "waves"
        || name == "prompt"
        || name == "stages"
        || name == "rtl"
}

/// Whether the words begin with the name of a command that `show` carries out.
pub fn is_named(words: &Vec<String>) -> bool
    ensures { result ≡ r.is_named (map (λ w. string_bytes w) words.now.items) }
{
    match words.as_slice() {
        [name, ..] => is_name(name.as_str()),
        _ => false,
    }
}

/// `picture`: a machine, or a machine and an image or a program.
fn of_picture<'w>(words: &'w [String]) -> Option<Request<'w>>
    ensures { option_map r.asked result
        ≡ r.picture_request (map (λ w. string_bytes w) words.now) }
{
    match words {
        [machine] => Some(Request::Machine(MachineRequest {
            view: View::Picture,
            machine,
        })),
        [machine, subject] => Some(Request::Picture(PictureRequest { machine, subject })),
        _ => None,
    }
}

/// `info`: a machine, or a machine and an image.
fn of_info<'w>(words: &'w [String]) -> Option<Request<'w>>
    ensures { option_map r.asked result
        ≡ r.info_request (map (λ w. string_bytes w) words.now) }
{
    match words {
        [machine] => Some(Request::Machine(MachineRequest {
            view: View::Info,
            machine,
        })),
        [machine, image] => Some(Request::Info(InfoRequest { machine, image })),
        _ => None,
    }
}

/// `cost`: a machine, or a machine and an image or a program.
fn of_cost<'w>(words: &'w [String]) -> Option<Request<'w>>
    ensures { option_map r.asked result
        ≡ r.cost_request (map (λ w. string_bytes w) words.now) }
{
    match words {
        [machine] => Some(Request::Machine(MachineRequest {
            view: View::Cost,
            machine,
        })),
        [machine, subject] => Some(Request::Cost(CostRequest { machine, subject })),
        _ => None,
    }
}

/// `stages`: a machine and a program, and `--html` behind them for a page.
fn of_stages<'w>(words: &'w [String]) -> Option<Request<'w>>
    ensures { option_map r.asked result
        ≡ r.stages_request (map (λ w. string_bytes w) words.now) }
{
    match words {
        [machine, program] => Some(Request::Stages(StagesRequest {
            view: StagesView::Lines,
            machine,
            program,
        })),
        [machine, program, mark] => {
            if mark.as_str() != "--html" {
                return None;
            }
            Some(Request::Stages(StagesRequest {
                view: StagesView::Page,
                machine,
                program,
            }))
        }
        _ => None,
    }
}

/// `prompt`: a machine, an image and data words, after which the file of an input may be named.
fn of_prompt<'w>(words: &'w [String]) -> Option<Request<'w>>
    ensures { option_map r.asked result
        ≡ r.prompt_request (map (λ w. string_bytes w) words.now) }
{
    match words {
        [machine, image, input] => Some(Request::Prompt(PromptRequest {
            machine,
            image,
            input,
            stream: None,
        })),
        [machine, image, input, stream] => Some(Request::Prompt(PromptRequest {
            machine,
            image,
            input,
            stream: Some(stream.as_str()),
        })),
        _ => None,
    }
}

/// The request of a command by its name and the words after it.
fn named<'w>(name: &str, words: &'w [String]) -> Option<Request<'w>>
    ensures { option_map r.asked result
        ≡ r.named_request name.now (map (λ w. string_bytes w) words.now) }
{
    if name == "picture" {
        return of_picture(words);
    }
    if name == "info" {
        return of_info(words);
    }
    if name == "cost" {
        return of_cost(words);
    }
    if name == "profile" {
        return of_run(RunView::Profile, words);
    }
    if name == "play" {
        return of_play(words);
    }
    if name == "waves" {
        return of_run(RunView::Waves, words);
    }
    if name == "prompt" {
        return of_prompt(words);
    }
    if name == "stages" {
        return of_stages(words);
    }
    if name == "rtl" {
        return of_rtl(words);
    }
    None
}

impl<'w> Request<'w> {
    /// What the words ask for, the first of them the command's name. `None` where they are no
    /// command.
    pub fn of(words: &'w Vec<String>) -> Option<Request<'w>>
        ensures { option_map r.asked result
            ≡ r.request_of (map (λ w. string_bytes w) words.now.items) }
    {
        match words.as_slice() {
            [name, rest @ ..] => named(name, rest),
            _ => None,
        }
    }
}
