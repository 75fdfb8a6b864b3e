ghost use Rattle.std.specs.Prelude.{◌≡◌};
ghost use Rattle.board_map.specs.Keys.{key_name};
ghost use Rattle.board_map.specs.Rows.{rows_of};
ghost use Rattle.board_map.specs.Shape.{array_key, spot_in};

use flat_model::{Key, Spot};

/// A version of the document's format.
#[derive(Clone, Copy, PartialEq, Eq, Debug)]
pub enum Format {
    One,
}

/// A kind of table.
#[derive(Clone, Copy, PartialEq, Eq, Debug)]
pub enum Form {
    Top,
    Board,
    Heap,
    AtBox,
    Thread,
    Grant,
    Irq,
    Register,
    Gateway,
    Device,
}

/// A key whose value is one of a few words.
#[derive(Clone, Copy, PartialEq, Eq, Debug)]
pub enum Choice {
    Rights,
    Round,
    Op,
}

/// What each element of an array is.
#[derive(Clone, Copy, PartialEq, Eq, Debug)]
pub enum Each {
    Pair,
    Table,
    Text,
    Line,
}

/// What a value has to be. An array may need at least one element; `Owner` and `Server` look at other
/// values too.
#[derive(Clone, Copy, PartialEq, Eq, Debug)]
pub enum Rule {
    Integer(u32, u32),
    Text,
    Flag,
    Word(Choice),
    Pair,
    Table,
    Array(Each, bool),
    Owner,
    Server,
}

/// What bounds a list or a sum.
#[derive(Clone, Copy, PartialEq, Eq, Debug)]
pub enum Limit {
    Free,
    Items(u32),
    Script,
    Threads,
    Steps,
    Rings,
}

/// One key of a table: what its value has to be, what bounds it, and whether it has to be there.
#[derive(Clone, Copy, PartialEq, Eq, Debug)]
pub struct Row {
    pub key: Key,
    pub rule: Rule,
    pub limit: Limit,
    pub required: bool,
}

// The row of a key that has to be there.
macro_rules! required {
    ($key:ident, $rule:expr, $limit:expr) => {
        Row { key: Key::$key, rule: $rule, limit: $limit, required: true }
    };
}

// The row of a key that may be left out.
macro_rules! optional {
    ($key:ident, $rule:expr, $limit:expr) => {
        Row { key: Key::$key, rule: $rule, limit: $limit, required: false }
    };
}

const WORD: Rule = Rule::Integer(0, 4294967295);

const TABLES: Rule = Rule::Array(Each::Table, false);

const SOME_TABLES: Rule = Rule::Array(Each::Table, true);

const TEXTS: Rule = Rule::Array(Each::Text, false);

static TOP: [Row; 7] = [
    required!(Format, Rule::Integer(1, 1), Limit::Free),
    required!(Board, Rule::Table, Limit::Free),
    required!(AtBox, SOME_TABLES, Limit::Items(8)),
    optional!(Register, TABLES, Limit::Items(32)),
    optional!(Gateway, TABLES, Limit::Items(32)),
    optional!(Device, TABLES, Limit::Items(4)),
    optional!(Script, TEXTS, Limit::Script),
];

static BOARD: [Row; 6] = [
    required!(Flash, Rule::Pair, Limit::Free),
    required!(Sram, Rule::Pair, Limit::Free),
    required!(Peripherals, Rule::Pair, Limit::Free),
    optional!(Secret, Rule::Pair, Limit::Free),
    optional!(Words, Rule::Array(Each::Pair, false), Limit::Items(64)),
    optional!(Heap, Rule::Table, Limit::Free),
];

static HEAP: [Row; 3] = [
    required!(Base, WORD, Limit::Free),
    required!(Page, WORD, Limit::Free),
    required!(Count, WORD, Limit::Free),
];

static AT_BOX: [Row; 7] = [
    required!(Name, Rule::Text, Limit::Free),
    required!(Size, Rule::Integer(1, 1048576), Limit::Free),
    optional!(Secret, Rule::Owner, Limit::Free),
    optional!(Server, Rule::Server, Limit::Free),
    required!(Thread, SOME_TABLES, Limit::Threads),
    optional!(Grant, TABLES, Limit::Items(64)),
    optional!(Irq, TABLES, Limit::Items(64)),
];

static THREAD: [Row; 2] = [
    required!(Program, Rule::Text, Limit::Free),
    optional!(Steps, Rule::Integer(1, 100000), Limit::Steps),
];

static GRANT: [Row; 5] = [
    required!(Base, WORD, Limit::Free),
    required!(Len, WORD, Limit::Free),
    required!(Rights, Rule::Word(Choice::Rights), Limit::Free),
    optional!(Round, Rule::Word(Choice::Round), Limit::Free),
    optional!(Shared, Rule::Flag, Limit::Free),
];

static IRQ: [Row; 2] = [
    required!(Line, Rule::Integer(0, 63), Limit::Free),
    required!(Handler, Rule::Integer(0, 65535), Limit::Free),
];

static REGISTER: [Row; 4] = [
    required!(At, WORD, Limit::Free),
    required!(Op, Rule::Word(Choice::Op), Limit::Free),
    optional!(Mask, WORD, Limit::Free),
    required!(Boxes, TEXTS, Limit::Items(8)),
];

static GATEWAY: [Row; 3] = [
    required!(AtBox, Rule::Text, Limit::Free),
    required!(Function, WORD, Limit::Free),
    required!(Callers, TEXTS, Limit::Items(8)),
];

static DEVICE: [Row; 1] = [required!(Rings, Rule::Array(Each::Line, false), Limit::Rings)];

impl Form {
    /// The keys of a kind of table, in their order.
    #[tactic(auto, unfolding(crate::specs::Rows::rows_of))]
    pub fn rows(self, format: Format) -> &'static [Row]
        ensures { result.now ≡ rows_of format self }
    {
        match (format, self) {
            (Format::One, Form::Top) => &TOP,
            (Format::One, Form::Board) => &BOARD,
            (Format::One, Form::Heap) => &HEAP,
            (Format::One, Form::AtBox) => &AT_BOX,
            (Format::One, Form::Thread) => &THREAD,
            (Format::One, Form::Grant) => &GRANT,
            (Format::One, Form::Irq) => &IRQ,
            (Format::One, Form::Register) => &REGISTER,
            (Format::One, Form::Gateway) => &GATEWAY,
            (Format::One, Form::Device) => &DEVICE,
        }
    }

    /// The key whose array has the tables of the kind.
    pub fn array_key(self) -> Key
        ensures { result ≡ array_key self }
    {
        match self {
            Form::Thread => Key::Thread,
            Form::Grant => Key::Grant,
            Form::Irq => Key::Irq,
            Form::Register => Key::Register,
            Form::Gateway => Key::Gateway,
            Form::Device => Key::Device,
            _ => Key::AtBox,
        }
    }

    /// Where a table of an array of the kind stands, by its box and its place in the array.
    pub fn spot(self, at_box: u32, i: u32) -> Spot
        ensures { result ≡ spot_in self at_box i }
    {
        match self {
            Form::Top => Spot::Top,
            Form::Board => Spot::Board,
            Form::Heap => Spot::Heap,
            Form::AtBox => Spot::AtBox(i),
            Form::Thread => Spot::Thread(at_box, i),
            Form::Grant => Spot::Grant(at_box, i),
            Form::Irq => Spot::Irq(at_box, i),
            Form::Register => Spot::Register(i),
            Form::Gateway => Spot::Gateway(i),
            Form::Device => Spot::Device(i),
        }
    }
}

/// How a key is written.
#[tactic(auto, unfolding(crate::specs::Keys::key_name))]
pub fn key_name(key: Key) -> &'static str
    ensures { result.now ≡ key_name key }
{
    match key {
        Key::Format => "format",
        Key::Board => "board",
        Key::AtBox => "box",
        Key::Register => "register",
        Key::Gateway => "gateway",
        Key::Device => "device",
        Key::Script => "script",
        Key::Flash => "flash",
        Key::Sram => "sram",
        Key::Peripherals => "peripherals",
        Key::Secret => "secret",
        Key::Words => "words",
        Key::Heap => "heap",
        Key::Base => "base",
        Key::Page => "page",
        Key::Count => "count",
        Key::Name => "name",
        Key::Size => "size",
        Key::Server => "server",
        Key::Thread => "thread",
        Key::Grant => "grant",
        Key::Irq => "irq",
        Key::Program => "program",
        Key::Steps => "steps",
        Key::Len => "len",
        Key::Rights => "rights",
        Key::Round => "round",
        Key::Shared => "shared",
        Key::Line => "line",
        Key::Handler => "handler",
        Key::At => "at",
        Key::Op => "op",
        Key::Mask => "mask",
        Key::Boxes => "boxes",
        Key::Function => "function",
        Key::Callers => "callers",
        Key::Rings => "rings",
    }
}
