// How events are printed.

ghost use Rattle.std.specs.Prelude.{◌≡◌, ◌++◌, ◌∷◌, OnOk};
ghost use Rattle.login_model.specs.Words.{device_kind_word, key_word};
ghost use Rattle.recording.specs.EventSpelling.{request_word, hardware_words, event_words};
ghost use Rattle.login_model.specs.inner.Prefixed.{spaced};

use crate::call::{push_call, push_device};
use crate::key_text::push_numbered;
use crate::line_text::LineText;
use login_base::NoMemory;
use login_model::{DevKind, Event, HardKey, Hardware};

fn push_request_word(text: &mut LineText, quiet: bool) -> Result<(), NoMemory>
    ensures { OnOk result (text.new ≡ text.old ++ 32 ∷ request_word quiet) }
{
    if quiet {
        text.word(b"send")
    } else {
        text.word(b"call")
    }
}

pub(crate) fn push_device_kind(text: &mut LineText, kind: DevKind) -> Result<(), NoMemory>
    ensures { OnOk result (text.new ≡ text.old ++ 32 ∷ device_kind_word kind) }
{
    text.word(kind.name())
}

fn push_key(text: &mut LineText, key: HardKey) -> Result<(), NoMemory>
    ensures { OnOk result (text.new ≡ text.old ++ 32 ∷ key_word key) }
{
    text.word(key.name())
}

#[tactic(auto, unfolding(crate::specs::EventSpelling::hardware_words))]
fn push_hardware(text: &mut LineText, hardware: &Hardware) -> Result<(), NoMemory>
    ensures { OnOk result (text.new ≡ text.old ++ spaced (hardware_words hardware.now)) }
{
    match hardware {
        Hardware::Add(device, kind, seat) => {
            text.word(b"add")?;
            push_device(text, *device)?;
            push_device_kind(text, *kind)?;
            text.word(seat.get().as_slice())
        }
        Hardware::Remove(device) => {
            text.word(b"remove")?;
            push_device(text, *device)
        }
        Hardware::Input(device, input_type, code, value) => {
            text.word(b"input")?;
            push_device(text, *device)?;
            text.number(u32::from(*input_type))?;
            text.number(u32::from(*code))?;
            text.signed(*value)
        }
        Hardware::VtKey(vt) => {
            text.word(b"vtkey")?;
            text.number(*vt)
        }
        Hardware::Key(key) => {
            text.word(b"key")?;
            push_key(text, *key)
        }
        Hardware::Dock(on) => {
            text.word(b"dock")?;
            text.flag(*on)
        }
        Hardware::Exit(id) => {
            text.word(b"exit")?;
            text.text(id.as_slice())
        }
        Hardware::JobDone => text.word(b"jobdone"),
    }
}

/// Adds the words of an event.
#[tactic(auto, unfolding(crate::specs::EventSpelling::event_words))]
pub(crate) fn push_event(text: &mut LineText, event: &Event) -> Result<(), NoMemory>
    ensures { OnOk result (text.new ≡ text.old ++ spaced (event_words event.now)) }
{
    match event {
        Event::Connect(who, uid) => {
            text.word(b"connect")?;
            text.number(who.0)?;
            text.number(uid.0)
        }
        Event::Disconnect(who) => push_numbered(text, b"disconnect", who.0),
        Event::Call(request) => {
            push_request_word(text, request.quiet)?;
            text.number(request.who.0)?;
            text.number(request.serial)?;
            push_call(text, &request.call)
        }
        Event::Hardware(hardware) => push_hardware(text, hardware),
        Event::Tick(moment) => {
            text.word(b"tick")?;
            text.moment(moment.0)
        }
        Event::Stop => text.word(b"stop"),
    }
}
