//! Which settings a script's lines have said.
ghost use Rattle.std.specs.Prelude.{◌≡◌};
ghost use Rattle.uv_script.specs.Grammar.{with_said};
ghost use Rattle.uv_script.specs.Reading.{is_new};
ghost use Rattle.uv_script.specs.Said.{said};

use crate::statement::Statement;

/// Which settings the lines so far have said, each once at most.
#[derive(Clone, Copy)]
pub struct Settings {
    /// `slots n [g]`
    pub slots: bool,
    /// `workers n`
    pub workers: bool,
    /// `order VERSION`
    pub order: bool,
    /// `io`
    pub io: bool,
    /// `timers heap`
    pub timers: bool,
}

impl Settings {
    /// Whether a statement isn't a setting that was said.
    pub(crate) fn is_new(self, statement: &Statement<'_>) -> bool
        ensures { result ≡ is_new self (said statement.now) }
    {
        match statement {
            Statement::Declares(_) => true,
            Statement::InMain(_) => true,
            Statement::InCallback(_, _, _) => true,
            Statement::Sizes(_) => !self.slots,
            Statement::HasWorkers(_) => !self.workers,
            Statement::Orders(_) => !self.order,
            Statement::HasIo => !self.io,
            Statement::FromHeap => !self.timers,
            Statement::InThread(_) => true,
        }
    }

    /// These, and what a statement says.
    pub(crate) fn with(self, statement: &Statement<'_>) -> Settings
        ensures { result ≡ with_said self (said statement.now) }
    {
        match statement {
            Statement::Declares(_) => self,
            Statement::InMain(_) => self,
            Statement::InCallback(_, _, _) => self,
            Statement::Sizes(_) => Settings {
                slots: true,
                ..self
            },
            Statement::HasWorkers(_) => Settings {
                workers: true,
                ..self
            },
            Statement::Orders(_) => Settings {
                order: true,
                ..self
            },
            Statement::HasIo => Settings { io: true, ..self },
            Statement::FromHeap => Settings {
                timers: true,
                ..self
            },
            Statement::InThread(_) => self,
        }
    }
}
