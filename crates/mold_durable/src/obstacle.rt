//! What prevents that a journal's file is created.

ghost use Rattle.std.specs.Prelude.{◌≡◌};
ghost use Rattle.mold_durable.specs.Obstacle.{obstacle_suffix, reason_of};

/// What prevents that a journal's file is created. It stays as it is.
#[derive(Clone, Copy, Debug, PartialEq, Eq)]
pub enum Obstacle {
    /// The name of the journal is a symbolic link to a file that does not exist.
    LinkToNothing,
    /// The name of the new file is a symbolic link.
    Link,
    /// The name of the new file is that of a folder, a pipe, a socket or a device.
    NotRegular,
    /// The new file can't be opened for reading and writing.
    NotOpened,
    /// The new file has something else than what the creation of a journal leaves if it is interrupted.
    OtherFile,
}

impl Obstacle {
    /// Returns what follows the journal's name in the name of the file with this obstacle.
    pub fn suffix(self) -> &'static str
        ensures { result.now ≡ obstacle_suffix self }
    {
        match self {
            Obstacle::LinkToNothing => "",
            Obstacle::Link | Obstacle::NotRegular | Obstacle::NotOpened | Obstacle::OtherFile =>
                ".new",
        }
    }

    /// Returns the reason for users.
    pub fn reason(self) -> &'static str
        ensures { result.now ≡ reason_of self }
    {
        match self {
            Obstacle::LinkToNothing => "it is a symbolic link to a file that does not exist",
            Obstacle::Link => "it is a symbolic link",
            Obstacle::NotRegular => "it is not a regular file",
            Obstacle::NotOpened => "it can't be opened for reading and writing",
            Obstacle::OtherFile => "it is not an unfinished journal",
        }
    }
}
