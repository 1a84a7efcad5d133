//! What holds of a finished machine.
ghost use Rattle.plural_finished.specs.Laws.{FinishedIsLegal, FinishedIsLog, FinishedIsMemory};

/// Its log is legal with its image.
pub fn finished_is_legal()
    ensures { FinishedIsLegal }
{}

/// Its log can be printed.
pub fn finished_is_log()
    ensures { FinishedIsLog }
{}

/// Its image is a memory of its map.
pub fn finished_is_memory()
    ensures { FinishedIsMemory }
{}
