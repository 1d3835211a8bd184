//! Where the loop stands, in five words.
ghost use Rattle.std.specs.Prelude.{◌≡◌, Some, None, IfOk, IfErr};
ghost use Rattle.uv_model.specs.declared.place.Stage.TheVariants.{Poll as poll};
ghost use Rattle.uv_model.specs.declared.place.Place.TheVariants.{Main as main, Running as running};
ghost use Rattle.uv_stands.specs.PackedPlaces.{stage_of, place_of};

use std::marker::Model;
use uv_ids::{Callback, Mode, Var};
use uv_model::{Body, Place, Run, Stage, TimersOf, Timing};
use uv_records::WatcherKind;

/// The stage of a body that is under way, as it is kept beside that: one without a number.
#[derive(Clone, Copy)]
pub enum BodyStage {
    Entry,
    Pending,
    Walking(WatcherKind),
    /// In a poll without a deadline.
    Poll,
    Polled(bool),
    Done,
    DoneUnwoken,
    Closing,
    Timers(TimersOf, Timing),
}

impl BodyStage {
    /// A stage, or the deadline of its poll in ms.
    fn of(stage: Stage) -> Result<BodyStage, u64>
        ensures ok { IfOk result (λ kept. stage_of kept ≡ stage) }
        ensures err { IfErr result (λ deadline. stage ≡ poll (Some deadline)) }
    {
        Ok(match stage {
            Stage::Entry => BodyStage::Entry,
            Stage::Pending => BodyStage::Pending,
            Stage::Walking(kind) => BodyStage::Walking(kind),
            Stage::Poll(None) => BodyStage::Poll,
            Stage::Poll(Some(deadline)) => return Err(deadline),
            Stage::Polled(woken) => BodyStage::Polled(woken),
            Stage::Done => BodyStage::Done,
            Stage::DoneUnwoken => BodyStage::DoneUnwoken,
            Stage::Closing => BodyStage::Closing,
            Stage::Timers(part, timing) => BodyStage::Timers(part, timing),
        })
    }

    fn stage(self) -> Stage
        ensures { result ≡ stage_of self }
    {
        match self {
            BodyStage::Entry => Stage::Entry,
            BodyStage::Pending => Stage::Pending,
            BodyStage::Walking(kind) => Stage::Walking(kind),
            BodyStage::Poll => Stage::Poll(None),
            BodyStage::Polled(woken) => Stage::Polled(woken),
            BodyStage::Done => Stage::Done,
            BodyStage::DoneUnwoken => Stage::DoneUnwoken,
            BodyStage::Closing => Stage::Closing,
            BodyStage::Timers(part, timing) => Stage::Timers(part, timing),
        }
    }
}

/// A place in five words, as a body that isn't under way takes none.
#[derive(Clone, Copy)]
pub enum PlaceForm {
    Main(usize),
    /// In a run of a line, with no body under way.
    Between(Mode, usize, Stage),
    /// In a body of a run of a line.
    Within(Mode, BodyStage, usize, Body),
    /// The same, in a poll with a deadline. (As a struct the body would take a word more.)
    WithinPoll {
        mode: Mode,
        callback: Callback,
        line: usize,
        name: Var,
        call: u32,
        next: usize,
        deadline: u64,
    },
}

// The memory has five words for it, and so has each record of a step.
const _: () = prove!(std::mem::size_of::<PlaceForm>() <= 40);

/// Where the loop stands, as the memory and the records of its steps keep it. Callers see the place.
#[derive(Clone, Copy)]
pub struct PackedPlace {
    form: PlaceForm,
}

impl Model for PackedPlace {
    ghost use Rattle.std.proofs.Common.{ap};
    ghost use Rattle.uv_model.specs.declared.place.Place.{Place};
    ghost use Rattle.uv_stands.specs.PackedPlaces.{place_of, form_of, form_back};

    ghost Value = { Place };

    ghost view = { λ p. place_of p.form };

    ghost inverse = { λ place. record { form = form_of place } };

    ghost inverse_ok = { λ p _. ap (λ f. record { form = f }) (form_back p.form) };
}

impl PackedPlace {
    /// At a line of the main program.
    pub fn main(line: usize) -> PackedPlace
        ensures { result ≡ main line }
    {
        PackedPlace {
            form: PlaceForm::Main(line),
        }
    }

    /// In a run of a line, with no body under way.
    #[inline(always)]
    pub fn between(mode: Mode, line: usize, stage: Stage) -> PackedPlace
        ensures { result ≡ running (record { mode = mode; line = line; stage = stage; body = None }) }
    {
        PackedPlace {
            form: PlaceForm::Between(mode, line, stage),
        }
    }

    /// In a run.
    #[inline(always)]
    pub fn running(run: Run) -> PackedPlace
        ensures { result ≡ running run }
    {
        match run.body {
            None => PackedPlace::between(run.mode, run.line, run.stage),
            Some(body) => PackedPlace::within(run, body),
        }
    }

    /// In a body of a run.
    #[inline(always)]
    fn within(run: Run, body: Body) -> PackedPlace
        ensures { result ≡ running (record run { body = Some body }) }
    {
        let form = match BodyStage::of(run.stage) {
            Ok(stage) => PlaceForm::Within(run.mode, stage, run.line, body),
            Err(deadline) => PlaceForm::WithinPoll {
                mode: run.mode,
                callback: body.callback,
                line: run.line,
                name: body.name,
                call: body.call,
                next: body.next,
                deadline,
            },
        };
        PackedPlace { form }
    }

    /// How it is kept, for a caller that asks for no more than it needs.
    #[inline(always)]
    pub fn form(self) -> PlaceForm
        ensures { place_of result ≡ self }
    {
        self.form
    }

    /// The place.
    pub fn place(self) -> Place
        ensures { result ≡ self }
    {
        match self.form {
            PlaceForm::Main(line) => Place::Main(line),
            PlaceForm::Between(mode, line, stage) => Place::Running(Run {
                mode,
                line,
                stage,
                body: None,
            }),
            PlaceForm::Within(mode, stage, line, body) => Place::Running(Run {
                mode,
                line,
                stage: stage.stage(),
                body: Some(body),
            }),
            PlaceForm::WithinPoll {
                mode,
                callback,
                line,
                name,
                call,
                next,
                deadline,
            } => Place::Running(Run {
                mode,
                line,
                stage: Stage::Poll(Some(deadline)),
                body: Some(Body {
                    callback,
                    name,
                    call,
                    next,
                }),
            }),
        }
    }
}
