//! What a table is good for, as the contract of a function with nothing to do.

ghost use Rattle.pr_table.specs.Laws.{TablesFollowScripts};

/// Who follows a script's table sends the commands that the script sends, takes the arms that it takes, and ends with its word.
#[tactic(auto, using(crate::proofs::lemmas::Following::Settling::tables_follow_scripts))]
pub fn tables_follow_scripts()
    ensures { TablesFollowScripts }
{}
