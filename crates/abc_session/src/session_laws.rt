ghost use Rattle.abc_session.specs.Beside.{CalledBeside, OpenedBeside, StartedBeside};
ghost use Rattle.abc_session.specs.Lives.{LivesFollow};
ghost use Rattle.abc_session.specs.Sessions.{CallsFollow};

/// For every list of calls that a session is asked one after the other, each reply and its output are those of the calls' meaning,
/// each in the world that the one before left, until writing fails; after that the session is closed.
pub fn calls_follow()
    ensures { CallsFollow }
{}

/// Every life of a session goes by its meaning: it is opened, started once, and asked any calls. The start ends as the file's meaning,
/// each call answers its own in the world that the start and the calls before left, and each text that was given can be told in the
/// end, with its bytes. Where the start wasn't done, no call does anything.
pub fn lives_follow()
    ensures { LivesFollow }
{}

/// A session that was opened beside a host may be used beside that host: from its opening on, over a start, and over each call.
pub fn sessions_stay_beside()
    ensures opened { OpenedBeside }
    ensures started { StartedBeside }
    ensures called { CalledBeside }
{}
