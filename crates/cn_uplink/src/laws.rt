ghost use Rattle.std.specs.Prelude.{◌≡◌, ℕ, List};
ghost use Rattle.cat_program.specs.declared.headers.Event.{Event};
ghost use Rattle.cat_program.specs.declared.outs.LogEntry.{LogEntry};
ghost use Rattle.cn_uplink.specs.declared.link_step.LinkStep.{LinkStep};
ghost use Rattle.cn_uplink.specs.Faithful.{LinksAreFaithful, PrefixesGoOn};
ghost use Rattle.cn_uplink.specs.Text.{IsUplinkText};

/// After any list of steps over any log the host holds the first records of the log, what is acknowledged is held, and every packet
/// carries the log's record at its place; and the rounds end with the whole log: a law of the definitions.
pub fn links_are_faithful()
    ensures { LinksAreFaithful }
{}

/// What the host holds of a log it holds of every later log: a law of the definitions.
pub fn prefixes_go_on()
    ensures { PrefixesGoOn }
{}

/// A log and a table have at most one text: a law of the definitions.
pub fn one_uplink_text()
    ensures { (headers : List Event) (log : List LogEntry) (steps : List LinkStep) (one other : List ℕ) → IsUplinkText headers log steps one → IsUplinkText headers log steps other → one ≡ other }
{}
