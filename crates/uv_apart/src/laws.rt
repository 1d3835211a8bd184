//! What a step of the loop is before and behind what comes from outside, and a worker's take beside it.
ghost use Rattle.std.specs.Prelude.{◌≡◌, ℕ, true, false, List, Option};
ghost use Rattle.uv_ids.specs.declared.event.Event.{Event};
ghost use Rattle.uv_ids.specs.declared.event.Event.TheVariants.{Loop, Take, Finish, Io, Tick, Send};
ghost use Rattle.uv_ids.specs.declared.id.Var.{Var};
ghost use Rattle.uv_ids.specs.declared.fault.Why.{Why};
ghost use Rattle.uv_ids.specs.declared.seen.Seen.{Seen};
ghost use Rattle.uv_script.specs.Program.{Program};
ghost use Rattle.uv_model.specs.After.{after, IsMove};
ghost use Rattle.uv_model.specs.State.{State};
ghost use Rattle.uv_model.specs.Next.{Moves, Refuses, next};
ghost use Rattle.uv_alike.specs.Asks.{cancels, reads_clock};
ghost use Rattle.uv_apart.specs.Apart.{is_apart, Meets, Crosses, LeavesPlace};

/// A step of the loop that doesn't read the clock, and a tick, can be taken in both orders: with the same lines, to the same state. It does
/// nothing, and is called for its clause.
pub fn ticks_apart()
    ensures { (p : Program) (s a b : State) (ms : ℕ) (l m : Option Seen) → reads_clock p s ≡ false
        → next p s Loop ≡ Moves a l → next p s (Tick ms) ≡ Moves b m → Meets p (Tick ms) a b l m }
{}

/// So can a step of the loop that is no cancel, and what a worker takes; the poll is such a step, too. It holds in every state that steps
/// lead to. And what refuses the loop's step refuses it behind the take. It does nothing, and is called for its clauses.
pub fn takes_apart()
    ensures meets { (p : Program) (es : List Event) (s a b : State) (k : ℕ) (l m : Option Seen) → s ≡ after p es → cancels p s ≡ false
        → next p s Loop ≡ Moves a l → next p s (Take k) ≡ Moves b m → Meets p (Take k) a b l m }
    ensures refused { (p : Program) (s a : State) (k : ℕ) (l : Option Seen) (why : Why) → cancels p s ≡ false
        → next p s (Take k) ≡ Moves a l → next p s Loop ≡ Refuses why → next p a Loop ≡ Refuses why }
{}

/// So can a step of the loop that is apart, and what a worker finishes. It does nothing, and is called for its clause.
pub fn finishes_apart()
    ensures { (p : Program) (es : List Event) (s a b : State) (k : ℕ) (l m : Option Seen) → s ≡ after p es → is_apart p s ≡ true
        → next p s Loop ≡ Moves a l → next p s (Finish k) ≡ Moves b m → Meets p (Finish k) a b l m }
{}

/// A step of the loop that is apart is no cancel. It does nothing, and is called for its clause.
pub fn apart_cancels()
    ensures { (p : Program) (s : State) → is_apart p s ≡ true → cancels p s ≡ false }
{}

/// A worker's take, and what comes beside it, can be taken in both orders: with the same lines, to the same state. Beside it come a tick,
/// what another worker finishes, a send, and a callback of I/O. It does nothing, and is called for its clauses.
pub fn takes_beside()
    ensures tick { (p : Program) (s a b : State) (k ms : ℕ) (l m : Option Seen) → next p s (Take k) ≡ Moves a l
        → next p s (Tick ms) ≡ Moves b m → Crosses p (Take k) (Tick ms) a b l m }
    ensures finish { (p : Program) (s a b : State) (k j : ℕ) (l m : Option Seen) → next p s (Take k) ≡ Moves a l
        → next p s (Finish j) ≡ Moves b m → Crosses p (Take k) (Finish j) a b l m }
    ensures send { (p : Program) (s a b : State) (k : ℕ) (v : Var) (l m : Option Seen) → next p s (Take k) ≡ Moves a l
        → next p s (Send v) ≡ Moves b m → Crosses p (Take k) (Send v) a b l m }
    ensures io { (p : Program) (s a b : State) (k : ℕ) (v : Var) (l m : Option Seen) → next p s (Take k) ≡ Moves a l
        → next p s (Io v) ≡ Moves b m → Crosses p (Take k) (Io v) a b l m }
{}

/// A step of the loop that is apart isn't refused. It does nothing, and is called for its clause.
pub fn apart_goes()
    ensures { (p : Program) (s : State) → is_apart p s ≡ true → IsMove (next p s Loop) }
{}

/// The loop's own steps leave the clock and what workers run. It does nothing, and is called for its clauses.
pub fn loop_leaves()
    ensures clock { (p : Program) (s a : State) (l : Option Seen) → next p s Loop ≡ Moves a l → a.clock ≡ s.clock }
    ensures running { (p : Program) (s a : State) (l : Option Seen) → next p s Loop ≡ Moves a l → a.running ≡ s.running }
{}

/// A tick, and what a worker takes or finishes, leave where the loop stands and what is named. It does nothing, and is called for its
/// clauses.
pub fn outside_leaves()
    ensures tick { (p : Program) (s b : State) (ms : ℕ) (m : Option Seen) → next p s (Tick ms) ≡ Moves b m → LeavesPlace p s b }
    ensures take { (p : Program) (s b : State) (k : ℕ) (m : Option Seen) → next p s (Take k) ≡ Moves b m → LeavesPlace p s b }
    ensures finish { (p : Program) (s b : State) (k : ℕ) (m : Option Seen) → next p s (Finish k) ≡ Moves b m → LeavesPlace p s b }
{}
