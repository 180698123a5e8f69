//! The numbers of the standards, and the list of the service actions, each law the contract of a function with nothing to do:
//! a number that is changed in the code, or an action that is left out there, fails here, though definitions cite both by their
//! names.

ghost use Rattle.pr_cdb.specs.Ranges.{Fits};
ghost use Rattle.pr_cdb.specs.Actions.{EachActionIsListed};
ghost use Rattle.pr_cdb.specs.Codes.{OperationCodesAgree, ServiceActionsAgree, SenseCodesAgree, LengthsAgree};

use crate::command::Command;

/// The fields of a command are in the ranges of their types. A proof has it from here, where it needs that of a command.
pub fn in_range(command: Command)
    ensures { Fits command }
{}

/// The operation codes are the standards'.
pub fn operation_codes_agree()
    ensures { OperationCodesAgree }
{}

/// The service actions and flags are the standards'.
pub fn service_actions_agree()
    ensures { ServiceActionsAgree }
{}

/// The sense keys, additional sense codes and qualifiers are the standards'.
pub fn sense_codes_agree()
    ensures { SenseCodesAgree }
{}

/// The lengths of what is sent and answered are the standards', and there are at most sixteen I_T nexuses.
pub fn lengths_agree()
    ensures { LengthsAgree }
{}

/// [`ServiceAction::ALL`](crate::ServiceAction::ALL) has all service actions.
pub fn each_action_is_listed()
    ensures { EachActionIsListed }
{}
