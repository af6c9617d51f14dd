// Laws of logs, and a worked example.
ghost use Rattle.root.specs.Examples.{FourStand};
ghost use Rattle.root.specs.Laws.{LogStands};

/// An edition's page is that of the name's last publication up to it; the tag of a publication is its own number if the name had no table before or another one, else the tag of the name's publication before. So a tag lies between 1 and the publication's number, and stands for one table.
pub fn log_stands()
    ensures { LogStands }
{}

/// The worked example holds.
pub fn worked()
    ensures { FourStand }
{}
