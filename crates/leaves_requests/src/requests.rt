// The requests, each read by its word and its fields.
ghost use Rattle.std.specs.Prelude.{◌≡◌, IfOk, IfSome, Ok, true};
ghost use Rattle.text.specs.Scans.{accept_at, end_at};
ghost use Rattle.leaves_requests.specs.Words.{word_of, name_of};

use ladder::{Ladder, MAX_LEN, MAX_RUNGS, Schedule};
use settings::Config;
use text::{Fault, Scan};
use text_form::{Reader, Slot};
use text_records::Record;

#[derive(Clone, Copy)]
pub enum Request {
    // `later T D`
    Later {
        t: u64,
        d: u64,
    },
    // `since NOW T`
    Since {
        now: u64,
        t: u64,
    },
    // `backoff EXPONENT BASE CAP`
    Backoff {
        exponent: u32,
        base: u64,
        cap: u64,
    },
    // `span RESENDS`
    Span(u8),
    // `doubling FIRST COUNT END`, with `-` for no end
    Doubling {
        first: u64,
        count: u8,
        end: Option<u64>,
    },
    // `probes FIRST COUNT END GAP`
    Probes {
        first: u64,
        count: u8,
        end: u64,
        gap: u64,
    },
    // `take ORIGIN NEXT LEN KEEPALIVE AT_0 .. AT_(LEN-1) NOW`
    Take {
        ladder: Ladder,
        now: u64,
    },
    // `check CFG`
    Check(Config),
    // `hold SILENCE CFG`
    Hold {
        silence: u64,
        cfg: Config,
    },
    // `wait N CFG`
    Wait {
        abandons: u8,
        cfg: Config,
    },
    // `params CFG`
    Params(Config),
}

// Which request a line is.
#[derive(Clone, Copy)]
enum Word {
    Later,
    Since,
    Backoff,
    Span,
    Doubling,
    Probes,
    Take,
    Check,
    Hold,
    Wait,
    Params,
}

static WORDS: [(&[u8], Word); 11] = [
    (b"later", Word::Later),
    (b"since", Word::Since),
    (b"backoff", Word::Backoff),
    (b"span", Word::Span),
    (b"doubling", Word::Doubling),
    (b"probes", Word::Probes),
    (b"take", Word::Take),
    (b"check", Word::Check),
    (b"hold", Word::Hold),
    (b"wait", Word::Wait),
    (b"params", Word::Params),
];

impl Request {
    // Reads a line that is one request. After a fault the scan stands at the field at fault.
    pub fn read(scan: &mut Scan<'_>) -> Result<Request, Fault>
        ensures line { scan.new.line ≡ scan.old.line }
        ensures named { IfOk result (λ r. accept_at scan.old.line.now scan.old.at (name_of (word_of r)) ≡ true) }
        ensures whole { IfOk result (λ _. end_at scan.old.line.now scan.new.at ≡ Ok tt) }
    {
        let word = Word::read(scan).ok_or(Fault::NotWord)?;
        let mut reader = Reader::by_place(*scan);
        let read = read_fields(&mut reader, word);
        scan.at = reader.scan.at;
        let request = read?;
        scan.end()?;
        Ok(request)
    }
}

impl Word {
    // The word that the next field of a line is.
    fn read(scan: &mut Scan<'_>) -> Option<Word>
        ensures line { scan.new.line ≡ scan.old.line }
        ensures named { IfSome result (λ w. accept_at scan.old.line.now scan.old.at (name_of w) ≡ true) }
    {
        scan.entry(&WORDS)
    }
}

// Reads what stands behind the word of a request.
fn read_fields(reader: &mut Reader<'_>, word: Word) -> Result<Request, Fault>
    ensures { IfOk result (λ r. word_of r ≡ word) }
{
    match word {
        Word::Later => {
            let [t, d] = numbers::<2>(reader)?;
            Ok(Request::Later { t, d })
        }
        Word::Since => {
            let [now, t] = numbers::<2>(reader)?;
            Ok(Request::Since { now, t })
        }
        Word::Backoff => {
            let exponent = exponent(reader)?;
            let [base, cap] = numbers::<2>(reader)?;
            Ok(Request::Backoff {
                exponent,
                base,
                cap,
            })
        }
        Word::Span => Ok(Request::Span(byte(reader)?)),
        Word::Doubling => {
            let first = number(reader)?;
            let count = byte(reader)?;
            let end = reader.optional(u64::MAX)?;
            Ok(Request::Doubling { first, count, end })
        }
        Word::Probes => {
            let first = number(reader)?;
            let count = byte(reader)?;
            let [end, gap] = numbers::<2>(reader)?;
            Ok(Request::Probes {
                first,
                count,
                end,
                gap,
            })
        }
        Word::Take => {
            let ladder = read_ladder(reader)?;
            let now = number(reader)?;
            Ok(Request::Take { ladder, now })
        }
        Word::Check => Ok(Request::Check(config(reader)?)),
        Word::Hold => {
            let silence = number(reader)?;
            let cfg = config(reader)?;
            Ok(Request::Hold { silence, cfg })
        }
        Word::Wait => {
            let abandons = byte(reader)?;
            let cfg = config(reader)?;
            Ok(Request::Wait { abandons, cfg })
        }
        Word::Params => Ok(Request::Params(config(reader)?)),
    }
}

fn number(reader: &mut Reader<'_>) -> Result<u64, Fault> {
    reader.number(u64::MAX)
}

fn numbers<const N: usize>(reader: &mut Reader<'_>) -> Result<[u64; N], Fault> {
    let mut all = [0; N];
    for n in all.iter_mut() {
        *n = number(reader)?;
    }
    Ok(all)
}

// Numbers that fit a narrower type.
fn byte(reader: &mut Reader<'_>) -> Result<u8, Fault> {
    let mut n = 0;
    reader.read(Slot::Byte(&mut n, u8::MAX))?;
    Ok(n)
}

fn exponent(reader: &mut Reader<'_>) -> Result<u32, Fault> {
    let n = reader.number(u32::MAX as u64)?;
    Ok(u32::try_from(n).unwrap_or(u32::MAX))
}

// A ladder. `Slot::Ladder` reads a length that does not fit, and cuts the ladder; here that is a fault.
fn read_ladder(reader: &mut Reader<'_>) -> Result<Ladder, Fault> {
    let origin = number(reader)?;
    let next = byte(reader)?;
    let mut len = 0;
    reader.read(Slot::Byte(&mut len, MAX_LEN))?;
    let keepalive = number(reader)?;
    let mut at = [0; MAX_RUNGS];
    for offset in at.iter_mut().take(usize::from(len)) {
        *offset = number(reader)?;
    }
    let sched = Schedule { at, keepalive, len };
    Ok(Ladder {
        origin,
        sched,
        next,
    })
}

fn config(reader: &mut Reader<'_>) -> Result<Config, Fault> {
    let mut cfg = Config::fmp();
    cfg.fields(reader)?;
    Ok(cfg)
}
