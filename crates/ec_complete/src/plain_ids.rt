// Laws on plain answers to a script's calls: they don't depend on the ids of new objects, and tell how many operations each clerk issued.
ghost use Rattle.ec_complete.specs.Ids.{AnswersTellOperations, RisingIdsAnswerAlike};

/// Calls are answered the same with other ids for new objects, where both rise above the ids of the volume.
pub fn ids_make_no_difference()
    ensures { RisingIdsAnswerAlike }
{}

/// So many operations as the answers name does the plain volume issue.
pub fn answers_tell_operations()
    ensures { AnswersTellOperations }
{}
