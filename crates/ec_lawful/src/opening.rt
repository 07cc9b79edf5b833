// All facts together at the opening of a disk.
ghost use Rattle.ec_lawful.specs.OpeningLaws.{OpensWhole};

/// Over any well-formed state of a disk all facts hold together behind the opening, and its world stands in
/// the system.
pub fn disks_open_whole()
    ensures { OpensWhole }
{}
