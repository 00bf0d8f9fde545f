// optbook: plays a script of calls, and answers each.
#![tactic(auto)]

mod answer;
mod desk;
mod ledger;
mod page;
mod play;
mod run;
mod share;
mod tally;
mod word;

use anyhow::anyhow;
use play::{Summary, play};
use std::env;
use std::fs::File;
use std::io::BufReader;
use std::process::ExitCode;

const HELP: &str = "\
optbook plays a script of calls and answers each.

usage: optbook [FILE]     play the script in FILE, or the one on standard input
       optbook --help     print this (or -h)

A script has one call to a line. Blank lines, and lines that begin with #, are passed over.

  share POLICY LOTS PLACE PLACE ..                 shares S S ..
  book LADDER TODAY LAST FIRST OPENING SESSION     made
  limit ID SIDE PRICE LOTS [LIFETIME] [CONDITION]  entered N traded T withdrawn W open O
  on-open ID SIDE LOTS [LIFETIME]                  entered N traded T withdrawn W open O
  cancel ID NUMBER                                 cancelled W
  reduce ID NUMBER LOTS                            open O
  line-down ID                                     withdrawn BIDS OFFERS
  line-up ID                                       done
  successor ID OTHER                               done
  trial SIDE PRICE LOTS                            price P|none volume V
  open                                             opened volume V total T withdrawn W price P|none
  market ID SIDE LOTS [LIFETIME] [CONDITION]       entered N traded T withdrawn W open O
  show                                             phase, session, day and the open orders

Before the opening a book takes limit, on-open, trial and open, in session limit and market; the
others in either. An opening and each entry in session are followed by their tape, a line each:
tape NUMBER SIDE PRICE LOTS. No phase offers close yet.

LADDER is securities, index or bond. OPENING and SESSION are policies.
POLICY is price-time, pro-rata or favour:CAP:MIN:POLICY, with at most four favours.
SIDE is bid or offer. LIFETIME is plain, gis, gtc or gtc:DAY. CONDITION is ic, cv or mv:MIN.

A call that the rules refuse answers 'refused' and a number, one that the phase does not offer
'wrong phase'. A line that is not understood answers 'line', its number and what is wrong; the
run goes on, and ends with status 1. Last come the lots of the last book, if one was made, and
the summary. docs/FORMAT.md has the whole format.

  $ echo 'share pro-rata 4 5 3 2' | optbook
  shares 2 2 0
  summary calls 1 taken 1 refused 0 not-understood 0
";

fn main(rt: HostRuntime) -> ExitCode {
    match start(&rt) {
        Ok(()) => ExitCode::SUCCESS,
        Err(error) => {
            // Where standard error cannot be written either, the status still tells.
            let _ = eprintln!(rt; "optbook: {error}");
            ExitCode::FAILURE
        }
    }
}

fn start(rt: &HostRuntime) -> anyhow::Result<()> {
    let mut words = env::args(rt)?.skip(1);
    let Some(name) = words.next() else {
        return finish(rt, play(rt, BufReader::new(rt.alloc(), rt.stdin())?)?);
    };
    if words.next().is_some() {
        return Err(anyhow!("more than one argument (try --help)"));
    }
    match name.as_str() {
        "-h" | "--help" => {
            rt.print(HELP)?;
            Ok(())
        }
        path => finish(rt, play_file(rt, path)?),
    }
}

// No `map_err`: making the text of the error may itself fail, by `?`.
fn play_file(rt: &HostRuntime, path: &str) -> anyhow::Result<Summary> {
    match File::open(rt, path) {
        Ok(file) => Ok(play(rt, BufReader::new(rt.alloc(), file)?)?),
        Err(error) => Err(anyhow!(format!(in rt.alloc(); "cannot read {path}: {error}")?)),
    }
}

// Prints the lots of the last book and the summary. An error ends the program with status 1.
fn finish(rt: &HostRuntime, summary: Summary) -> anyhow::Result<()> {
    if let Some(balance) = summary.balance {
        rt.println(balance)?;
    }
    rt.println(summary.tally)?;
    match summary.tally.not_understood {
        0 => Ok(()),
        _ => Err(anyhow!("not every line was understood")),
    }
}
