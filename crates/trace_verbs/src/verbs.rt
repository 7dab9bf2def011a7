//! Verbs and how they are written.
ghost use Rattle.std.specs.Prelude.{◌≡◌, find};
ghost use Rattle.std.specs.Str.{bytes_eq};
ghost use Rattle.trace_verbs.specs.Verbs.{verb_name, verb_named};

/// A verb.
#[derive(Clone, Copy, Debug, PartialEq, Eq)]
pub enum Verb {
    Pages,
    FreePages,
    Map,
    Pool,
    FreePool,
    Read,
    Write,
    Install,
    InstallMany,
    Uninstall,
    Reinstall,
    Open,
    Close,
    Information,
    HandleProtocol,
    Notify,
    Locate,
    LocateBuffer,
    LocateProtocol,
    Protocols,
    Connect,
    Disconnect,
    Path,
    Exit,
    List,
}

/// All verbs.
const VERBS: [Verb; 25] = [
    Verb::Pages,
    Verb::FreePages,
    Verb::Map,
    Verb::Pool,
    Verb::FreePool,
    Verb::Read,
    Verb::Write,
    Verb::Install,
    Verb::InstallMany,
    Verb::Uninstall,
    Verb::Reinstall,
    Verb::Open,
    Verb::Close,
    Verb::Information,
    Verb::HandleProtocol,
    Verb::Notify,
    Verb::Locate,
    Verb::LocateBuffer,
    Verb::LocateProtocol,
    Verb::Protocols,
    Verb::Connect,
    Verb::Disconnect,
    Verb::Path,
    Verb::Exit,
    Verb::List,
];

impl Verb {
    /// How the verb is written.
    pub fn name(self) -> &'static str
        ensures { result.now ≡ verb_name self }
    {
        match self {
            Verb::Pages => "pages",
            Verb::FreePages => "free-pages",
            Verb::Map => "map",
            Verb::Pool => "pool",
            Verb::FreePool => "free-pool",
            Verb::Read => "read",
            Verb::Write => "write",
            Verb::Install => "install",
            Verb::InstallMany => "install-many",
            Verb::Uninstall => "uninstall",
            Verb::Reinstall => "reinstall",
            Verb::Open => "open",
            Verb::Close => "close",
            Verb::Information => "information",
            Verb::HandleProtocol => "handle-protocol",
            Verb::Notify => "notify",
            Verb::Locate => "locate",
            Verb::LocateBuffer => "locate-buffer",
            Verb::LocateProtocol => "locate-protocol",
            Verb::Protocols => "protocols",
            Verb::Connect => "connect",
            Verb::Disconnect => "disconnect",
            Verb::Path => "path",
            Verb::Exit => "exit",
            Verb::List => "list",
        }
    }
}

/// The verb that is written so.
pub fn verb_named(name: &[u8]) -> Option<Verb>
    ensures { result ≡ verb_named name.now }
{
    verb_among(&VERBS, name)
}

/// The first of the verbs that is written so.
fn verb_among(verbs: &[Verb], name: &[u8]) -> Option<Verb>
    ensures { result ≡ find (λ v. bytes_eq (verb_name v) name.now) verbs.now }
{
    verbs
        .iter()
        .copied()
        .find(|verb| verb.name().as_bytes() == name)
}
