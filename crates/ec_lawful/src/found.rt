// Records in doubt, restarts, and the opening over any disk: all facts stand.
ghost use Rattle.ec_lawful.specs.Doubts.{DoubtsStand, DoubtsStay, RecordsComeFromEnds, RecordsComeFromMessages};
ghost use Rattle.ec_lawful.specs.Fates.{RestartsAreSuch, StoppedRestartsAreSuch, StopsInStepsAreSuch};
ghost use Rattle.ec_lawful.specs.Founds.{BaresStand, FoundsMake, FoundsStand, RestartsStand};
ghost use Rattle.ec_lawful.specs.Olds.{OpensStand, VolumesAreBases, VolumesHaveGreatest, VolumesNameIds};

/// Over any well-formed state of a disk all facts hold behind the opening, and its world stands in the
/// system; its volume is a base of histories, with new ids above all that it names.
pub fn disks_open()
    ensures opens { OpensStand }
    ensures bases { VolumesAreBases }
    ensures greatest { VolumesHaveGreatest }
    ensures ids { VolumesNameIds }
{}

/// A server stops with a record of which it isn't shown that it's on the disk: all facts stand, and the
/// record comes from a message that was sent, which stays so.
pub fn records_are_in_doubt()
    ensures stop { DoubtsStand }
    ensures stay { DoubtsStay }
    ensures takes { RecordsComeFromMessages }
    ensures ends { RecordsComeFromEnds }
{}

/// A restart shows the record that it finds, and starts the server on the state behind it, in an epoch
/// above all that restarts which stopped have raised it to: all facts stand.
pub fn restarts_stand()
    ensures bare { BaresStand }
    ensures makes { FoundsMake }
    ensures found { FoundsStand }
    ensures restart { RestartsStand }
{}

/// Where the disk stops in a step or in a restart, without or with the record, and where a restart comes
/// up, the world stands in the system that these laws speak of.
pub fn worlds_stand_behind_stops_and_restarts()
    ensures stops { StopsInStepsAreSuch }
    ensures stopped { StoppedRestartsAreSuch }
    ensures up { RestartsAreSuch }
{}
