//! The law of what the workers' searches make together, on a function that does nothing.

ghost use Rattle.ih_desk.specs.Finishing.{FinishedSearchesAreFull};

/// A history that is legal but for its draws is full once each worker has finished by a beginning of it, past which it
/// has nothing of that worker.
pub fn finished_searches_are_full()
    ensures { FinishedSearchesAreFull }
{}
