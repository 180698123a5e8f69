//! Laws of the language, each the contract of a function with nothing to do.

ghost use Rattle.pr_text.specs.Laws.{EarlierTextsShareNoPath, FirstFaultDecides, TextsAreWrittenOnce, WhatIsWrittenFits};
ghost use Rattle.pr_text.specs.ScriptRoundTrip.{ScriptsHaveNoFault};
ghost use Rattle.pr_text.specs.ScenarioRoundTrip.{ScenariosHaveNoFault};

/// A text is written as one scenario at most: its scripts are the only ones that are written as its lines.
pub fn texts_are_written_once()
    ensures { TextsAreWrittenOnce }
{}

/// What a text is written as keeps the limits, has each key declared that it names, and can start.
pub fn what_is_written_fits()
    ensures { WhatIsWrittenFits }
{}

/// The first line with a fault decides: what follows it does not matter.
pub fn the_first_fault_decides()
    ensures { FirstFaultDecides }
{}

/// The lines that a script is written as have no fault, if it fits.
pub fn scripts_have_no_fault()
    ensures { ScriptsHaveNoFault }
{}

/// What the lines of a scenario say has no fault, if its parts fit, it can start, only hosts share their paths, and what may be
/// pending are attentions.
pub fn scenarios_have_no_fault()
    ensures { ScenariosHaveNoFault }
{}

/// In a text of version 1 or 2 nobody else sends on any path, and the disk looks at the reservation before an attention.
pub fn earlier_texts_share_no_path()
    ensures { EarlierTextsShareNoPath }
{}
