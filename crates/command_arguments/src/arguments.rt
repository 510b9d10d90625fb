//! The words that each command takes.

use clap::{Arg, ArgAction, Command};
use std::alloc::{AllocError, Global};

pub(crate) const VERDICT_EXAMPLE: &str =
    "Example: osdgate verdict --caps 'allow rw pool=data' --pool data --object x --read --write";

const EXPLAIN_EXAMPLE: &str = "Example: osdgate explain --caps 'profile rbd pool=vms'";

const COMPARE_EXAMPLE: &str = "\
Example: osdgate compare --old 'allow r' --new 'allow rw'
Example: osdgate compare --auth now.json --auth planned.json --check";

const COMPARE_USAGE: &str = "\
osdgate compare --old <TEXT> --new <TEXT> [OPTIONS]
       osdgate compare --auth <FILE> --auth <FILE> [OPTIONS]";

const SHARE_USAGE: &str = "\
osdgate share --caps <TEXT> --caps <TEXT> [OPTIONS]
       osdgate share --auth <FILE> [OPTIONS]";

const LINT_USAGE: &str = "\
osdgate lint --caps <TEXT> [OPTIONS]
       osdgate lint --auth <FILE> [OPTIONS]";

const WHO_EXAMPLE: &str =
    "Example: ceph osd dump --format json > pools.json; ceph auth ls --format json | osdgate who --auth - --pools pools.json --pool data --object x --read";

const SHARE_EXAMPLE: &str = "\
Example: osdgate share --caps 'allow rw pool=data' --caps 'allow r'
Example: ceph auth ls --format json | osdgate share --auth - --without client.admin --check";

const LINT_EXAMPLE: &str = "\
Example: osdgate lint --caps 'allow r, allow rw pool=data, allow r pool=data'
Example: osdgate lint --caps 'allow rw, allow r' --tidy
Example: ceph auth ls --format json | osdgate lint --auth - --check";

const RUN_EXAMPLE: &str = "\
Example: osdgate run incident.txt
Example: osdgate run --picture incident.svg incident.txt
Example: osdgate run --picture request.svg --request 1.2 incident.txt";

const THREADS_EXAMPLE: &str = "Example: osdgate threads 4";

const COMPLETIONS_EXAMPLE: &str = "Example: source <(osdgate completions bash)";

const WORKERS_HELP: &str = "The number of workers, 1 to 8, each on a thread of its own";

const SCRIPT_HELP: &str = "The script; standard input if it is `-` or not given";

const PICTURE_HELP: &str =
    "The file of a picture of what happens to a group: SVG where it ends in `.svg`, a Mermaid sequence diagram where it ends in `.mmd`; `-` prints SVG in place of what the script prints";

const GROUP_HELP: &str =
    "The group of the picture; if none is given, that of the request, or else the one with most messages";

const LINES_HELP: &str =
    "Draw only what these lines of the script do, such as `3..9`, and nothing behind them";

const REQUEST_HELP: &str =
    "Draw only what happens with this request, such as `1.2`, and what moves its group meanwhile";

pub(crate) const AUTH_HELP: &str =
    "What `ceph auth ls`, `ceph auth export` or `ceph auth get NAME` prints, with or without `--format json`, or a keyring; `-` for standard input";

const AUTHS_HELP: &str =
    "A file of entities as `osdgate who` takes it; given twice, the present one and then the planned one, `-` for standard input";

pub(crate) const POOLS_HELP: &str =
    "The pools and their tags: what `ceph osd dump --format json` or `ceph osd pool ls detail --format json` prints, `-` for standard input";

const LINT_POOLS_HELP: &str =
    "List also grants that match none of these pools: what `ceph osd dump --format json` or `ceph osd pool ls detail --format json` prints, `-` for standard input";

pub(crate) const SHARED_POOLS_HELP: &str =
    "Only what these pools have counts, each with its tags: what `ceph osd dump --format json` or `ceph osd pool ls detail --format json` prints, `-` for standard input";

pub(crate) const REQUESTS_HELP: &str =
    "A file with a request a line, in the words of `osdgate verdict`, in place of the options of one request: prints a table of entities and requests; `-` for standard input";

pub(crate) const FORMAT_HELP: &str = "The form of the answer, `text` if none is given";

const REGISTRY_HELP: &str =
    "The class registry of requests: `all` of them, if none is given, this program's `own`, or by Ceph's rules the `known` methods of Ceph 16.2.15";

const ALL_HELP: &str =
    "Show also the pairs of entities that read and write every object, and with `--flows` each step of a chain";

/// Which methods requests call.
const METHODS: OptionRow = (
    "registry",
    Choice(&["all", "known"]),
    "The class methods that count: those of `all` registries, if none is given, or by Ceph's rules the `known` ones of Ceph 16.2.15, of which each does what Ceph's table says",
);

/// What an option takes.
#[derive(Clone, Copy)]
pub(crate) enum Takes {
    /// A value that must be given, under this name in help.
    Needed(&'static str),
    /// A value that may be given.
    Value(&'static str),
    /// Values that may be given, each with the option's name.
    Values(&'static str),
    /// A value that must be given, under this name in help, unless one of these others is.
    NeededUnless(&'static str, &'static [&'static str]),
    /// One of these words, which may be given.
    Choice(&'static [&'static str]),
    /// Values that may be given, each with the option's name and `=`; without one it is `*`.
    Patterns(&'static str),
    /// Nothing.
    Nothing,
}

use Takes::{Choice, Needed, NeededUnless, Nothing, Patterns, Value, Values};

/// An option's name, what it takes, and its help.
pub(crate) type OptionRow = (&'static str, Takes, &'static str);

const POOL: OptionRow = ("pool", Needed("POOL"), "The pool");

const OBJECT: OptionRow = (
    "object",
    NeededUnless("OBJECT", &["list"]),
    "The object's name",
);

const NAMESPACE: OptionRow = (
    "namespace",
    Value("NAMESPACE"),
    "The object's namespace, the empty one if none is given",
);

const TAG: OptionRow = (
    "tag",
    Values("APP[:KEY=VALUE]"),
    "An application of the pool, and a key with its value; may be repeated",
);

const READ: OptionRow = ("read", Nothing, "The request reads");

const WRITE: OptionRow = ("write", Nothing, "The request writes");

const LIST_HELP: &str = "The request lists the names of objects; it names no object";

const FROM: OptionRow = (
    "from",
    Value("ADDRESS"),
    "The client's IPv4 or IPv6 address; if none is given, the answer is over all addresses",
);

const CALL_HELP: &str =
    "A call of a method that is not in the class registry: what it does, r, w or rw, and then `:listed` if flags cover the class; by Ceph's rules its table has 295 methods";

/// The text, in whose place that of an entity of a file may be.
fn caps_option<'a>(alloc: Global) -> Result<Arg<'a>, AllocError> {
    text_option(alloc, "caps", "TEXT", "The capability text")
        .required_unless_present("auth")?
        .conflicts_with("auth")
}

/// A file with the text of an entity.
fn entity_file_option<'a>(alloc: Global) -> Result<Arg<'a>, AllocError> {
    text_option(alloc, "auth", "FILE", AUTH_HELP).requires_arg("entity")
}

/// The entity whose text is taken from a file.
fn entity_option<'a>(alloc: Global) -> Result<Arg<'a>, AllocError> {
    let help =
        "The entity of the file, such as `client.app`, whose text for object stores is taken";
    text_option(alloc, "entity", "NAME", help).requires_arg("auth")
}

/// One text: as it is, or that of an entity of a file.
fn with_caps<'a>(alloc: Global, command: Command<'a>) -> Result<Command<'a>, AllocError> {
    let command = with_arg(command, caps_option(alloc))?;
    let command = with_arg(command, entity_file_option(alloc))?;
    with_arg(command, entity_option(alloc))
}

const POOLS: OptionRow = ("pools", Value("FILE"), POOLS_HELP);

pub(crate) const RULES: OptionRow = (
    "rules",
    Choice(&["project", "ceph"]),
    "By whose rules capability texts are read: `project` for this project's, as texts are if it is not given, or `ceph` for those of Ceph 16.2.15, as files of entities are",
);

const LISTED: OptionRow = (
    "listed",
    Value("NAMES"),
    "By Ceph's rules, the classes that flags cover, with commas between them, in place of the default `osd_class_default_list`",
);

pub(crate) const FORMAT: OptionRow = ("format", Choice(&["text", "json"]), FORMAT_HELP);

pub(crate) const ONLY: OptionRow = (
    "only",
    Values("GLOB"),
    "Only entities whose names match, such as `client.rgw.*`, where `*` is any text; may be repeated",
);

pub(crate) const WITHOUT: OptionRow = (
    "without",
    Values("GLOB"),
    "No entities whose names match, such as `client.admin` or `osd.*`; may be repeated",
);

const KNOWN: OptionRow = (
    "known",
    Patterns("GLOB"),
    "Leave out entities that could not be checked, and exit with 0 beside them and beside access that depends on unknown tags; with `=GLOB` only those whose names match, and then it may be repeated; `=@FILE` takes patterns from a file, one a line",
);

/// The options of `osdgate verdict`.
const VERDICT: &[OptionRow; 16] = &[
    RULES,
    LISTED,
    POOL,
    OBJECT,
    NAMESPACE,
    TAG,
    POOLS,
    (
        "until",
        Value("TICK"),
        "The first tick at which the grants no longer hold",
    ),
    (
        "tick",
        Value("TICK"),
        "When the request comes, 0 if none is given",
    ),
    READ,
    WRITE,
    FROM,
    (
        "why",
        Nothing,
        "Print the grants that allow the request, too",
    ),
    FORMAT,
    (
        "check",
        Nothing,
        "Exit with 1 if the request is denied, or if that depends on the client's address",
    ),
    (
        "known",
        Nothing,
        "Exit with 0 beside access that depends on unknown tags",
    ),
];

/// The options of a line of a file of requests.
const REQUEST: &[OptionRow; 7] = &[POOL, OBJECT, NAMESPACE, TAG, READ, WRITE, FROM];

/// The options of `osdgate who`, except the last two.
const WHO: &[OptionRow; 15] = &[
    ("auth", Needed("FILE"), AUTH_HELP),
    RULES,
    LISTED,
    ("pool", NeededUnless("POOL", &["requests"]), "The pool"),
    (
        "object",
        NeededUnless("OBJECT", &["requests", "list", "any"]),
        "The object's name",
    ),
    NAMESPACE,
    TAG,
    POOLS,
    READ,
    WRITE,
    FROM,
    FORMAT,
    ONLY,
    WITHOUT,
    KNOWN,
];

/// The options of `osdgate explain`.
const EXPLAIN: &[OptionRow; 2] = &[RULES, FORMAT];

/// The last options of `osdgate compare`.
const COMPARE_HOW: &[OptionRow; 4] = &[
    RULES,
    ("registry", Choice(&["all", "own", "known"]), REGISTRY_HELP),
    ("check", Nothing, "Exit with 1 if the new text allows more"),
    FORMAT,
];

/// The options of `osdgate share` that apply only to the entities of a file, except `flows`.
const SHARE_FILE: &[OptionRow; 6] = &[
    ("auth", Value("FILE"), AUTH_HELP),
    ("pools", Value("FILE"), SHARED_POOLS_HELP),
    ONLY,
    WITHOUT,
    ("reads", Nothing, "Show also two that read the same"),
    ("all", Nothing, ALL_HELP),
];

/// The last options of `osdgate share`.
const SHARE_HOW: &[OptionRow; 5] = &[
    RULES,
    METHODS,
    KNOWN,
    (
        "check",
        Nothing,
        "Exit with 1 if one writes what another reads or writes, with `--flows` if there is a line",
    ),
    FORMAT,
];

/// The last options of `osdgate lint`.
const LINT_HOW: &[OptionRow; 7] = &[
    RULES,
    METHODS,
    ONLY,
    WITHOUT,
    KNOWN,
    (
        "check",
        Nothing,
        "Exit with 1 if a grant is redundant, matches no pool or no address, or uses an unknown profile",
    ),
    FORMAT,
];

/// Whether this is an option's name.
pub fn is_option(word: &str) -> bool {
    VERDICT.iter().any(|row| row.0 == word)
        || WHO.iter().any(|row| row.0 == word)
        || matches!(
            word,
            "all" | "caps" | "requests" | "list" | "call" | "color"
        )
}

/// An option whose value is taken as it is, also where it begins with a dash.
pub(crate) fn text_option<'a>(
    alloc: Global,
    name: &'a str,
    value: &'a str,
    help: &'a str,
) -> Arg<'a> {
    Arg::new(alloc, name)
        .long(name)
        .action(ArgAction::Set)
        .allow_hyphen_values(true)
        .value_name(value)
        .help(help)
}

fn flag<'a>(alloc: Global, name: &'a str, help: &'a str) -> Arg<'a> {
    Arg::new(alloc, name)
        .long(name)
        .action(ArgAction::SetTrue)
        .help(help)
}

/// An option whose value may be left out, and is behind a `=` if it is there.
fn patterns_option<'a>(alloc: Global, name: &'a str, value: &'a str, help: &'a str) -> Arg<'a> {
    text_option(alloc, name, value, help)
        .action(ArgAction::Append)
        .num_args(0usize..=1usize)
        .require_equals(true)
        .default_missing_value("*")
}

fn option<'a>(alloc: Global, (name, takes, help): OptionRow) -> Result<Arg<'a>, AllocError> {
    match takes {
        Needed(value) => Ok(text_option(alloc, name, value, help).required(true)),
        NeededUnless(value, others) => {
            text_option(alloc, name, value, help).required_unless_present_any(others)
        }
        Value(value) => Ok(text_option(alloc, name, value, help)),
        Choice(words) => Ok(text_option(alloc, name, "WORD", help).value_parser(words)),
        Values(value) => Ok(text_option(alloc, name, value, help).action(ArgAction::Append)),
        Patterns(value) => Ok(patterns_option(alloc, name, value, help)),
        Nothing => Ok(flag(alloc, name, help)),
    }
}

/// A value without an option's name in front.
pub(crate) fn operand<'a>(alloc: Global, name: &'a str, value: &'a str, help: &'a str) -> Arg<'a> {
    Arg::new(alloc, name)
        .action(ArgAction::Set)
        .value_name(value)
        .help(help)
}

/// A command with one more argument, which may not have been made.
pub(crate) fn with_arg<'a>(
    command: Command<'a>,
    arg: Result<Arg<'a>, AllocError>,
) -> Result<Command<'a>, AllocError> {
    command.arg(arg?)
}

pub(crate) fn with_options<'a>(
    alloc: Global,
    command: Command<'a>,
    options: &[OptionRow],
) -> Result<Command<'a>, AllocError> {
    let mut command = command;
    for row in options {
        command = with_arg(command, option(alloc, *row))?;
    }
    Ok(command)
}

/// A call of a request with what it does.
fn stated_option<'a>(alloc: Global) -> Arg<'a> {
    text_option(alloc, "call", "CLASS.METHOD:r", CALL_HELP).action(ArgAction::Append)
}

/// The calls of a request by their names.
fn calls_operand<'a>(alloc: Global) -> Arg<'a> {
    let help =
        "A class method that the request calls: of the class registry, or by Ceph's rules of its table";
    operand(alloc, "calls", "CLASS.METHOD", help).action(ArgAction::Append)
}

/// What else a request asks for, beside which it lists no names.
const NOT_LISTED: &[&str; 5] = &["object", "read", "write", "call", "calls"];

/// A request for the names of objects.
fn list_option<'a>(alloc: Global) -> Result<Arg<'a>, AllocError> {
    in_place_of(flag(alloc, "list", LIST_HELP), NOT_LISTED)
}

/// The words of a request: these options and its calls, by their names or with what they do.
fn with_request<'a>(
    alloc: Global,
    command: Command<'a>,
    options: &[OptionRow],
) -> Result<Command<'a>, AllocError> {
    let command = with_options(alloc, command, options)?;
    let command = with_arg(command, list_option(alloc))?;
    let command = command.arg(stated_option(alloc))?;
    command.arg(calls_operand(alloc))
}

/// The words of a line of a file of requests.
pub fn request_command<'a>(alloc: Global) -> Result<Command<'a>, AllocError> {
    let command = Command::new(alloc, "request")
        .no_binary_name(true)
        .disable_help_flag(true);
    with_request(alloc, command, REQUEST)
}

pub(crate) fn verdict_command<'a>(alloc: Global) -> Result<Command<'a>, AllocError> {
    let command = Command::new(alloc, "verdict")
        .about("Check whether a capability text allows a request, and say why not")
        .after_help(VERDICT_EXAMPLE);
    let command = with_caps(alloc, command)?;
    with_request(alloc, command, VERDICT)
}

/// The words of one request, in whose place a file of requests is.
const ONE_REQUEST: &[&str; 10] = &[
    "from",
    "pool",
    "object",
    "namespace",
    "tag",
    "read",
    "write",
    "list",
    "call",
    "calls",
];

/// An argument with which none of these others may come.
pub(crate) fn in_place_of<'a>(
    arg: Arg<'a>,
    others: &[&'static str],
) -> Result<Arg<'a>, AllocError> {
    let mut arg = arg;
    for other in others {
        arg = arg.conflicts_with(*other)?;
    }
    Ok(arg)
}

/// A file of requests, in the place of the options of one.
fn requests_option<'a>(alloc: Global) -> Result<Arg<'a>, AllocError> {
    let file = text_option(alloc, "requests", "FILE", REQUESTS_HELP);
    in_place_of(file, ONE_REQUEST)
}

/// What says where a request goes or comes from, or asks otherwise: none of it is with a request at something in a pool.
const NOT_ANY: &[&str; 5] = &["object", "namespace", "from", "requests", "all"];

/// A request at something in a pool.
fn any_option<'a>(alloc: Global) -> Result<Arg<'a>, AllocError> {
    let help =
        "List who is allowed the request somewhere in the pool, at any object of any namespace from any address, each with an example";
    in_place_of(flag(alloc, "any", help), NOT_ANY)
}

pub(crate) fn who_command<'a>(alloc: Global) -> Result<Command<'a>, AllocError> {
    let command = Command::new(alloc, "who")
        .about("List the entities of a file that are allowed a request")
        .after_help(WHO_EXAMPLE);
    let command = with_request(alloc, command, WHO)?;
    let command = with_arg(command, requests_option(alloc))?;
    let command = with_arg(command, any_option(alloc))?;
    command.arg(flag(alloc, "all", "Print each entity with its answer"))
}

pub(crate) fn explain_command<'a>(alloc: Global) -> Result<Command<'a>, AllocError> {
    let command = Command::new(alloc, "explain")
        .about("Print the canonical form of a capability text, and the grants that it expands to")
        .after_help(EXPLAIN_EXAMPLE);
    let command = with_caps(alloc, command)?;
    with_options(alloc, command, EXPLAIN)
}

/// The options that choose entities of files.
const CHOICE: &[OptionRow; 3] = &[ONLY, WITHOUT, KNOWN];

/// The options that choose entities of files, each of which conflicts with a single text.
const OF_ENTITIES: &[&str; 3] = &["only", "without", "known"];

/// The present text, which comes with the new one, or else files do.
fn old_option<'a>(alloc: Global) -> Result<Arg<'a>, AllocError> {
    let old = text_option(alloc, "old", "TEXT", "The present capability text")
        .required_unless_present("auth")?
        .requires_arg("new")?;
    in_place_of(old, OF_ENTITIES)
}

/// The new text, which comes with the present one.
fn new_option<'a>(alloc: Global) -> Result<Arg<'a>, AllocError> {
    text_option(alloc, "new", "TEXT", "The planned capability text").requires_arg("old")
}

/// The files, in the place of both texts.
fn files_option<'a>(alloc: Global) -> Result<Arg<'a>, AllocError> {
    text_option(alloc, "auth", "FILE", AUTHS_HELP)
        .action(ArgAction::Append)
        .conflicts_with("old")?
        .conflicts_with("new")
}

/// The lines of `ceph` that make the change, which only files have.
fn commands_option<'a>(alloc: Global) -> Result<Arg<'a>, AllocError> {
    let help =
        "Print also the lines of `ceph auth` that make the change, each with all texts of its entity";
    flag(alloc, "commands", help)
        .conflicts_with("old")?
        .conflicts_with("new")
}

pub(crate) fn compare_command<'a>(alloc: Global) -> Result<Command<'a>, AllocError> {
    let command = Command::new(alloc, "compare")
        .about(
            "Compare two capability texts, or all those of two files: what each allows that the other denies",
        )
        .override_usage(COMPARE_USAGE)
        .after_help(COMPARE_EXAMPLE);
    let command = with_arg(command, old_option(alloc))?;
    let command = with_arg(command, new_option(alloc))?;
    let command = with_arg(command, files_option(alloc))?;
    let command = with_arg(command, commands_option(alloc))?;
    let command = with_options(alloc, command, CHOICE)?;
    with_options(alloc, command, COMPARE_HOW)
}

/// What only the entities of a file are asked with.
const OF_FILE: &[&str; 8] = &[
    "auth", "pools", "only", "without", "reads", "all", "flows", "known",
];

/// The two texts, in whose place a file of entities may be.
fn two_texts_option<'a>(alloc: Global) -> Result<Arg<'a>, AllocError> {
    let help = "A capability text; given twice, once for each of two tenants";
    let texts = text_option(alloc, "caps", "TEXT", help)
        .action(ArgAction::Append)
        .required_unless_present("auth")?;
    in_place_of(texts, OF_FILE)
}

/// Where the data that each entity writes may flow, in place of what each two of them share.
fn flows_option<'a>(alloc: Global) -> Result<Arg<'a>, AllocError> {
    let help =
        "Show instead which entities may come to know what another one writes, and through whom";
    flag(alloc, "flows", help).conflicts_with("reads")
}

pub(crate) fn share_command<'a>(alloc: Global) -> Result<Command<'a>, AllocError> {
    let command = Command::new(alloc, "share")
        .about("Show what two capability texts, or the entities of a file, both reach")
        .override_usage(SHARE_USAGE)
        .after_help(SHARE_EXAMPLE);
    let command = with_arg(command, two_texts_option(alloc))?;
    let command = with_options(alloc, command, SHARE_FILE)?;
    let command = with_arg(command, flows_option(alloc))?;
    with_options(alloc, command, SHARE_HOW)
}

/// One text, in whose place a file of entities may be.
fn one_text_option<'a>(alloc: Global) -> Result<Arg<'a>, AllocError> {
    let text = text_option(alloc, "caps", "TEXT", "The capability text")
        .required_unless_present("auth")?
        .conflicts_with("auth")?;
    in_place_of(text, OF_ENTITIES)
}

/// The text without redundant grants. It applies to a text alone.
fn tidy_option<'a>(alloc: Global) -> Result<Arg<'a>, AllocError> {
    flag(alloc, "tidy", "Print the text without redundant grants").conflicts_with("auth")
}

/// The pools that grants may match.
fn lint_pools_option<'a>(alloc: Global) -> Result<Arg<'a>, AllocError> {
    text_option(alloc, "pools", "FILE", LINT_POOLS_HELP).conflicts_with("tidy")
}

pub(crate) fn lint_command<'a>(alloc: Global) -> Result<Command<'a>, AllocError> {
    let command = Command::new(alloc, "lint")
        .about("List the redundant grants of a capability text, or print the text without them")
        .override_usage(LINT_USAGE)
        .after_help(LINT_EXAMPLE);
    let command = with_arg(command, one_text_option(alloc))?;
    let command = command.arg(text_option(alloc, "auth", "FILE", AUTH_HELP))?;
    let command = with_arg(command, tidy_option(alloc))?;
    let command = with_arg(command, lint_pools_option(alloc))?;
    with_options(alloc, command, LINT_HOW)
}

/// The group of a picture.
fn group_option<'a>(alloc: Global) -> Result<Arg<'a>, AllocError> {
    text_option(alloc, "group", "POOL", GROUP_HELP)
        .num_args(2)
        .value_names(&["POOL", "GROUP"])
        .requires_arg("picture")
}

/// An option that selects a part of the picture.
fn part_option<'a>(
    alloc: Global,
    name: &'a str,
    value: &'a str,
    help: &'a str,
) -> Result<Arg<'a>, AllocError> {
    text_option(alloc, name, value, help).requires_arg("picture")
}

pub(crate) fn run_command<'a>(alloc: Global) -> Result<Command<'a>, AllocError> {
    let command = Command::new(alloc, "run")
        .about("Run a script of events in a world of its own, and print what happens")
        .after_help(RUN_EXAMPLE)
        .arg(text_option(alloc, "picture", "FILE", PICTURE_HELP))?;
    let command = with_arg(command, group_option(alloc))?;
    let command = with_arg(command, part_option(alloc, "lines", "A..B", LINES_HELP))?;
    let command = with_arg(command, part_option(alloc, "request", "S.N", REQUEST_HELP))?;
    let help = "Only look for lines that are no commands, and exit with 1 if there is one";
    let command = with_arg(
        command,
        flag(alloc, "check", help).conflicts_with("picture"),
    )?;
    command.arg(operand(alloc, "script", "FILE", SCRIPT_HELP))
}

pub(crate) fn threads_command<'a>(alloc: Global) -> Result<Command<'a>, AllocError> {
    let help = "A daemon goes down and comes up 20 times meanwhile";
    Command::new(alloc, "threads")
        .about("Run workers on threads over one cluster, and print what became of their requests")
        .after_help(THREADS_EXAMPLE)
        .arg(operand(alloc, "workers", "N", WORKERS_HELP).required(true))?
        .arg(flag(alloc, "moves", help))
}

/// The shells that completions are made for.
const SHELLS: &[&str] = &["bash", "zsh", "fish"];

pub(crate) fn completions_command<'a>(alloc: Global) -> Result<Command<'a>, AllocError> {
    let shell = operand(alloc, "shell", "SHELL", "The shell")
        .required(true)
        .value_parser(SHELLS);
    Command::new(alloc, "completions")
        .about("Print completions for a shell")
        .after_help(COMPLETIONS_EXAMPLE)
        .arg(shell)
}

pub(crate) fn man_command<'a>(alloc: Global) -> Command<'a> {
    Command::new(alloc, "man").about("Print the man page")
}
