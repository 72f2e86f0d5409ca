//! The program's commands as `clap` reads them.

ghost use Rattle.std.specs.Prelude.{◌≡◌, IfOk, IfSome, IsOkAnd, false};
ghost use Rattle.clap.specs.Words.{app_of, new_app, rule_of, with_rule, with_subcommand};
ghost use Rattle.clap.specs.declared.builder.command.Command.TheViews.{out-Command as fields_of};
ghost use Rattle.hq_words.specs.Commands.{job_rule, file_rule, timeline_rule, show_app, audit_app, check_app};
ghost use Rattle.hq_words.specs.Commands.{out_rule, pack_app, replay_app, copies_rule, chart_app, graph_app};
ghost use Rattle.hq_words.specs.Commands.{pair_rule, second_rule, all_rule, words_rule, explain_app, good_rule};
ghost use Rattle.hq_words.specs.Commands.{bad_rule, witness_app, fix_app, trim_app, run_app, program_app};
ghost use Rattle.hq_words.specs.Commands.{judging_app, running_app, telling_app, changing_app, hsaq_app};
ghost use Rattle.hq_words.specs.Commands.{ReadsAsAll};

use clap::{Arg, ArgAction, Command};
use std::alloc::{AllocError, Global};

/// The program's version.
const VERSION: &str = "1.0.0";

const SHOW_STATUS: &str = "Exit status: 0; 3 where the text is no job.";

const AUDIT_STATUS: &str =
    "Exit status: 0 with a certificate, 4 with a conflict that nothing orders, \
     5 with packets that can never complete; 3 where the text is no job.";

const CHECK_STATUS: &str =
    "Exit status: 0 where the certificate holds, 6 where it doesn't; 3 where the text is no job.";

const RUN_STATUS: &str =
    "Exit status: 0; 4 with a conflict that nothing orders, 5 with packets that can never complete, 7 where the run \
     met a fault; 3 where the text is no job.";

const REPLAY_STATUS: &str =
    "Exit status: 0; 7 where the timeline is none, or an event isn't enabled; 3 where the text is no job.";

const CHART_STATUS: &str =
    "Exit status: 0; 7 where the timeline is none, or an event isn't enabled, up to which it is drawn; 3 where the \
     text is no job.";

const GRAPH_STATUS: &str =
    "Exit status: 0 where every conflict is ordered, 4 with a conflict that nothing orders, 5 with packets that can \
     never complete; 3 where the text is no job.";

const EXPLAIN_STATUS: &str = "Pairs are told of in number order, without --all the first hundred.

Exit status: 0 where every conflict is ordered, 4 with a conflict that nothing orders, 5 with packets that can never \
complete; 3 where the text is no job. With --pair that of these two packets.";

const WITNESS_STATUS: &str =
    "Each run completes every packet. Where none were found, the conflict is printed as `audit` does; nothing is \
said of whether there are some.

Exit status: 0 where every conflict is ordered, 4 with a conflict that nothing orders, 5 with packets that can never \
complete; 3 where the text is no job.";

const FIX_STATUS: &str =
    "The text is the one that was read but for the digits of changed headers; each change is told on standard error.

Exit status: 0; 4 with a conflict that no bits and fences order, 5 with packets that can never complete; 3 where the \
text is no job.";

const TRIM_STATUS: &str =
    "The text is the one that was read but for the digits of changed headers; each change is told on standard error.

Exit status: 0; 4 with a conflict that nothing orders, 5 with packets that can never complete; 3 where the text is \
no job.";

/// The words of each kind of packet.
const PACK_WORDS: &str = "The words of a packet, DONE being its completion signal:
  kernel BIT ACQ REL SETUP WX WY WZ GX GY GZ PRIVATE GROUP OBJECT KERNARG DONE
  agent BIT ACQ REL TYPE RETURN A0 A1 A2 A3 DONE
  and BIT ACQ REL D0 D1 D2 D3 D4 DONE
  or BIT ACQ REL D0 D1 D2 D3 D4 DONE
BIT is the barrier bit, 0 or 1. ACQ and REL are the scopes of the fences: none, agent or system. All else is numbers.

Exit status: 0; 2 where the words are none of these; 3 where the bytes are no packet.";

/// The argument JOB.
fn job<'a>(alloc: Global) -> Arg<'a>
    ensures rule { rule_of result ≡ job_rule }
    ensures local { result.global ≡ false }
{
    Arg::new(alloc, "JOB")
        .required(true)
        .action(ArgAction::Set)
        .help("A job text, or @ for standard input")
}

/// The argument CERT.
fn certificate<'a>(alloc: Global) -> Arg<'a>
    ensures rule { rule_of result ≡ file_rule }
    ensures local { result.global ≡ false }
{
    Arg::new(alloc, "CERT")
        .required(true)
        .action(ArgAction::Set)
        .help("A certificate, as `audit` prints it")
}

/// The argument TIMELINE.
fn timeline<'a>(alloc: Global) -> Arg<'a>
    ensures rule { rule_of result ≡ timeline_rule }
    ensures local { result.global ≡ false }
{
    Arg::new(alloc, "TIMELINE")
        .required(true)
        .action(ArgAction::Set)
        .help("A timeline: the events of a run, one line each")
}

/// The option `--timeline OUT`.
fn out<'a>(alloc: Global) -> Arg<'a>
    ensures rule { rule_of result ≡ out_rule }
    ensures local { result.global ≡ false }
{
    Arg::new(alloc, "OUT")
        .long("timeline")
        .action(ArgAction::Set)
        .help("Writes the timeline to the file OUT, as `replay` reads it")
}

/// The flag `--copies`.
fn copies<'a>(alloc: Global) -> Arg<'a>
    ensures rule { rule_of result ≡ copies_rule }
    ensures local { result.global ≡ false }
{
    Arg::new(alloc, "COPIES")
        .long("copies")
        .action(ArgAction::SetTrue)
        .help("Draws what happens to copies of bytes too: taken, written back, dropped")
}

/// The option `--pair P`, behind which R stands.
fn pair<'a>(alloc: Global) -> Arg<'a>
    ensures rule { rule_of result ≡ pair_rule }
    ensures local { result.global ≡ false }
{
    Arg::new(alloc, "PAIR")
        .long("pair")
        .action(ArgAction::Set)
        .help("With a second number behind it: explains these two packets alone")
}

/// The argument R, behind `--pair P`.
fn second<'a>(alloc: Global) -> Arg<'a>
    ensures rule { rule_of result ≡ second_rule }
    ensures local { result.global ≡ false }
{
    Arg::new(alloc, "SECOND")
        .action(ArgAction::Set)
        .help("The second packet of --pair")
}

/// The flag `--all`.
fn all<'a>(alloc: Global) -> Arg<'a>
    ensures rule { rule_of result ≡ all_rule }
    ensures local { result.global ≡ false }
{
    Arg::new(alloc, "ALL")
        .long("all")
        .action(ArgAction::SetTrue)
        .help("Explains all pairs that conflict, and not only the first hundred")
}

/// The option `--good GOOD`.
fn good<'a>(alloc: Global) -> Arg<'a>
    ensures rule { rule_of result ≡ good_rule }
    ensures local { result.global ≡ false }
{
    Arg::new(alloc, "GOOD")
        .long("good")
        .action(ArgAction::Set)
        .help("Writes the timeline of the run that goes right to GOOD, as `replay` reads it")
}

/// The option `--bad BAD`.
fn bad<'a>(alloc: Global) -> Arg<'a>
    ensures rule { rule_of result ≡ bad_rule }
    ensures local { result.global ≡ false }
{
    Arg::new(alloc, "BAD")
        .long("bad")
        .action(ArgAction::Set)
        .help("Writes the timeline of the other run to BAD")
}

/// The argument WORDS.
fn fields<'a>(alloc: Global) -> Arg<'a>
    ensures rule { rule_of result ≡ words_rule }
    ensures local { result.global ≡ false }
{
    Arg::new(alloc, "WORDS")
        .required(true)
        .action(ArgAction::Append)
        .help("The packet's kind, and then its fields in turn")
}

/// A command of this name on a job: what it does, how it is called, and what its exit status says.
fn of_job<'a>(
    alloc: Global,
    name: &'a str,
    about: &'a str,
    usage: &'a str,
    status: &'a str,
) -> Result<Command<'a>, AllocError>
    ensures app { IfOk result (λ c. app_of c ≡ with_rule (new_app name.entry.now) job_rule) }
    ensures local { IfOk result (λ c. (fields_of c).has_globals ≡ false) }
{
    Command::new(alloc, name)
        .about(about)
        .override_usage(usage)
        .after_help(status)
        .arg(job(alloc))
}

/// A command with one argument more, where it could be made.
fn taking<'a>(
    command: Result<Command<'a>, AllocError>,
    argument: Arg<'a>,
) -> Result<Command<'a>, AllocError>
    ensures app { IfOk result
        (λ c. IsOkAnd command.entry
        (λ w. argument.entry.global ≡ false → app_of c ≡ with_rule (app_of w) (rule_of argument.entry))) }
    ensures local { IfOk result
        (λ c. IsOkAnd command.entry
        (λ w. argument.entry.global ≡ false → (fields_of w).has_globals ≡ false → (fields_of c).has_globals ≡ false)) }
{
    command?.arg(argument)
}

/// `show JOB`
fn show<'a>(alloc: Global) -> Result<Command<'a>, AllocError>
    ensures app { IfOk result (λ c. app_of c ≡ show_app) }
    ensures local { IfOk result (λ c. (fields_of c).has_globals ≡ false) }
{
    of_job(
        alloc,
        "show",
        "Prints a job's packets, one line each",
        "hsaq show <JOB>",
        SHOW_STATUS,
    )
}

/// `audit JOB`
fn audit<'a>(alloc: Global) -> Result<Command<'a>, AllocError>
    ensures app { IfOk result (λ c. app_of c ≡ audit_app) }
    ensures local { IfOk result (λ c. (fields_of c).has_globals ≡ false) }
{
    of_job(
        alloc,
        "audit",
        "Prints a certificate that orders every conflict, or the conflict that nothing orders",
        "hsaq audit <JOB>",
        AUDIT_STATUS,
    )
}

/// `check JOB CERT`
fn check<'a>(alloc: Global) -> Result<Command<'a>, AllocError>
    ensures app { IfOk result (λ c. app_of c ≡ check_app) }
    ensures local { IfOk result (λ c. (fields_of c).has_globals ≡ false) }
{
    taking(
        of_job(
            alloc,
            "check",
            "Checks a certificate against a job",
            "hsaq check <JOB> <CERT>",
            CHECK_STATUS,
        ),
        certificate(alloc),
    )
}

/// `run JOB [--timeline OUT]`
fn run<'a>(alloc: Global) -> Result<Command<'a>, AllocError>
    ensures app { IfOk result (λ c. app_of c ≡ run_app) }
    ensures local { IfOk result (λ c. (fields_of c).has_globals ≡ false) }
{
    taking(
        of_job(
            alloc,
            "run",
            "Audits and checks a job, runs it with a thread for each queue, and prints the buffers as the run leaves \
             them",
            "hsaq run <JOB> [--timeline <OUT>]",
            RUN_STATUS,
        ),
        out(alloc),
    )
}

/// `replay JOB TIMELINE`
fn replay<'a>(alloc: Global) -> Result<Command<'a>, AllocError>
    ensures app { IfOk result (λ c. app_of c ≡ replay_app) }
    ensures local { IfOk result (λ c. (fields_of c).has_globals ≡ false) }
{
    taking(
        of_job(
            alloc,
            "replay",
            "Replays a timeline on a job, and prints the buffers as it leaves them",
            "hsaq replay <JOB> <TIMELINE>",
            REPLAY_STATUS,
        ),
        timeline(alloc),
    )
}

/// `chart JOB TIMELINE [--copies]`
fn chart<'a>(alloc: Global) -> Result<Command<'a>, AllocError>
    ensures app { IfOk result (λ c. app_of c ≡ chart_app) }
    ensures local { IfOk result (λ c. (fields_of c).has_globals ≡ false) }
{
    let of_job = of_job(
        alloc,
        "chart",
        "Draws a timeline as an SVG picture: what each packet did when",
        "hsaq chart <JOB> <TIMELINE> [--copies]",
        CHART_STATUS,
    );
    taking(taking(of_job, timeline(alloc)), copies(alloc))
}

/// `graph JOB`
fn graph<'a>(alloc: Global) -> Result<Command<'a>, AllocError>
    ensures app { IfOk result (λ c. app_of c ≡ graph_app) }
    ensures local { IfOk result (λ c. (fields_of c).has_globals ≡ false) }
{
    of_job(
        alloc,
        "graph",
        "Draws a job's order as a DOT graph: what is before what, and each conflict",
        "hsaq graph <JOB>",
        GRAPH_STATUS,
    )
}

/// `explain JOB [--pair P R] [--all]`
fn explain<'a>(alloc: Global) -> Result<Command<'a>, AllocError>
    ensures app { IfOk result (λ c. app_of c ≡ explain_app) }
    ensures local { IfOk result (λ c. (fields_of c).has_globals ≡ false) }
{
    let of_job = of_job(
        alloc,
        "explain",
        "Says why each conflict is ordered or isn't, and which single changes would order it",
        "hsaq explain <JOB> [--pair <P> <R>] [--all]",
        EXPLAIN_STATUS,
    );
    let of_pair = taking(taking(of_job, pair(alloc)), second(alloc));
    taking(of_pair, all(alloc))
}

/// `witness JOB [--good GOOD] [--bad BAD]`
fn witness<'a>(alloc: Global) -> Result<Command<'a>, AllocError>
    ensures app { IfOk result (λ c. app_of c ≡ witness_app) }
    ensures local { IfOk result (λ c. (fields_of c).has_globals ≡ false) }
{
    let of_job = of_job(
        alloc,
        "witness",
        "Shows two runs of a job that isn't ordered in which a byte comes from elsewhere",
        "hsaq witness <JOB> [--good <GOOD>] [--bad <BAD>]",
        WITNESS_STATUS,
    );
    taking(taking(of_job, good(alloc)), bad(alloc))
}

/// `fix JOB`
fn fix<'a>(alloc: Global) -> Result<Command<'a>, AllocError>
    ensures app { IfOk result (λ c. app_of c ≡ fix_app) }
    ensures local { IfOk result (λ c. (fields_of c).has_globals ≡ false) }
{
    of_job(
        alloc,
        "fix",
        "Prints the job with the barrier bits and fences that it lacks, and none that it can do without",
        "hsaq fix <JOB>",
        FIX_STATUS,
    )
}

/// `trim JOB`
fn trim<'a>(alloc: Global) -> Result<Command<'a>, AllocError>
    ensures app { IfOk result (λ c. app_of c ≡ trim_app) }
    ensures local { IfOk result (λ c. (fields_of c).has_globals ≡ false) }
{
    of_job(
        alloc,
        "trim",
        "Prints the job without the barrier bits and fences that it doesn't need",
        "hsaq trim <JOB>",
        TRIM_STATUS,
    )
}

/// `pack WORDS..`
fn pack<'a>(alloc: Global) -> Result<Command<'a>, AllocError>
    ensures app { IfOk result (λ c. app_of c ≡ pack_app) }
    ensures local { IfOk result (λ c. (fields_of c).has_globals ≡ false) }
{
    Command::new(alloc, "pack")
        .about("Prints the 64 bytes of a packet as hexadecimal digits")
        .override_usage("hsaq pack <WORDS>...")
        .after_help(PACK_WORDS)
        .arg(fields(alloc))
}

/// `hsaq` without its commands. The words that it is given leave out the program's name.
fn program<'a>(alloc: Global) -> Command<'a>
    ensures { app_of result ≡ program_app }
{
    Command::new(alloc, "hsaq")
        .about(
            "Checks whether the packets of HSA user-mode queues order their kernels, and proves its answer; it makes \
             no order of its own",
        )
        .after_help("In place of JOB, @ is standard input, and no words at all mean `audit @`.")
        .version(VERSION)
        .no_binary_name(true)
        .subcommand_required(true)
}

/// A command with another below it, where both could be made.
fn with<'a>(
    command: Result<Command<'a>, AllocError>,
    below: Result<Command<'a>, AllocError>,
) -> Result<Command<'a>, AllocError>
    ensures { IfOk result
        (λ c. IsOkAnd command.entry
        (λ w. IsOkAnd below.entry
        (λ b. (fields_of b).has_globals ≡ false → app_of c ≡ with_subcommand (app_of w) (app_of b).top))) }
{
    let below = below?;
    command?.subcommand(below)
}

/// `hsaq` with the commands that judge a job.
fn judging<'a>(alloc: Global) -> Result<Command<'a>, AllocError>
    ensures { IfOk result (λ c. app_of c ≡ judging_app) }
{
    with(with(Ok(program(alloc)), audit(alloc)), check(alloc))
}

/// `hsaq` with those and the commands of runs.
fn running<'a>(alloc: Global) -> Result<Command<'a>, AllocError>
    ensures { IfOk result (λ c. app_of c ≡ running_app) }
{
    let with_replay = with(with(judging(alloc), run(alloc)), replay(alloc));
    with(with_replay, chart(alloc))
}

/// `hsaq` with those and the commands that explain a job.
fn telling<'a>(alloc: Global) -> Result<Command<'a>, AllocError>
    ensures { IfOk result (λ c. app_of c ≡ telling_app) }
{
    let with_explain = with(with(running(alloc), graph(alloc)), explain(alloc));
    with(with_explain, witness(alloc))
}

/// `hsaq` with those and the commands that change a job.
fn changing<'a>(alloc: Global) -> Result<Command<'a>, AllocError>
    ensures { IfOk result (λ c. app_of c ≡ changing_app) }
{
    with(with(telling(alloc), fix(alloc)), trim(alloc))
}

/// `hsaq` with all its commands.
pub fn hsaq<'a>(alloc: Global) -> Result<Command<'a>, AllocError>
    ensures { IfOk result (λ c. app_of c ≡ hsaq_app) }
{
    with(with(changing(alloc), show(alloc)), pack(alloc))
}

/// The command of a name, if there is one.
fn named<'a>(alloc: Global, name: &str) -> Result<Option<Command<'a>>, AllocError>
    ensures alone { IfOk result (λ c. IfSome c (λ c. ReadsAsAll name.now (with_subcommand program_app (app_of c).top))) }
    ensures local { IfOk result (λ c. IfSome c (λ c. (fields_of c).has_globals ≡ false)) }
{
    match name {
        "show" => Ok(Some(show(alloc)?)),
        "audit" => Ok(Some(audit(alloc)?)),
        "check" => Ok(Some(check(alloc)?)),
        "run" => Ok(Some(run(alloc)?)),
        "replay" => Ok(Some(replay(alloc)?)),
        "chart" => Ok(Some(chart(alloc)?)),
        "graph" => Ok(Some(graph(alloc)?)),
        "explain" => Ok(Some(explain(alloc)?)),
        "witness" => Ok(Some(witness(alloc)?)),
        "fix" => Ok(Some(fix(alloc)?)),
        "trim" => Ok(Some(trim(alloc)?)),
        "pack" => Ok(Some(pack(alloc)?)),
        _ => Ok(None),
    }
}

/// `hsaq` with the one command of a name, if there is one. It costs less to make than `hsaq` with all.
pub fn hsaq_alone<'a>(alloc: Global, name: &str) -> Result<Option<Command<'a>>, AllocError>
    ensures { IfOk result (λ c. IfSome c (λ c. ReadsAsAll name.now (app_of c))) }
{
    match named(alloc, name)? {
        Some(command) => Ok(Some(with(Ok(program(alloc)), Ok(command))?)),
        None => Ok(None),
    }
}
