/// How many lines of programs there are to draw from.
pub const KINDS: u32 = 63;

/// How many lines a program has.
pub const LINES: usize = 24;

/// The lines, some of which are several. A capital stands for a number that is drawn: R a register, B mostly the one that
/// is 0, W an address, E an aligned one, O an aligned one that mostly may be written, T a table, P the address of a page,
/// F an aligned place in flash, V and K counts of pages, N a place, L a line, G and C gateways, M looks.
pub const TEMPLATES: [&str; 63] = [
    "set rR W",
    "set rR V",
    "set rR V",
    "mov rR rR",
    "add rR rR rR",
    "sub rR rR rR",
    "and rR rR rR",
    "orr rR rR rR",
    "eor rR rR rR",
    "load8 rR rB W",
    "load16 rR rB E",
    "load32 rR rB E",
    "load32 rR rB E",
    "load32 rR rB E",
    "store8 rR rB W",
    "store16 rR rB O",
    "store32 rR rB O",
    "store32 rR rB O",
    "store32 rR rB E",
    "exec rB F",
    "exec rB E",
    "jump N",
    "jz rR N",
    "jnz rR N",
    "jz r7 N",
    "box_id rR",
    "set r0 V\nset r1 T\npages_alloc r0 r1\nload32 r2 r1 0",
    "set r0 V\nset r1 T\npages_alloc r0 r1\nload32 r2 r1 0",
    "set r0 K\nset r1 E\npages_alloc r0 r1",
    "pages_alloc rR rR",
    "store32 r0 r2 0",
    "load8 r4 r2 0",
    "page_free r2",
    "page_free r2",
    "set r3 P\npage_free r3",
    "page_free rR",
    "irq_on L",
    "irq_on L",
    "irq_on L",
    "irq_off L",
    "irq_return",
    "irq_return",
    "irq_return",
    "gw_read rR G",
    "gw_read rR G",
    "gw_write rR G",
    "gw_write rR G",
    "rpc_call r5 C",
    "rpc_call r5 C",
    "rpc_call rR C",
    "rpc_sync C M",
    "rpc_sync C M",
    "rpc_take",
    "rpc_take",
    "rpc_take\nrpc_return rR",
    "rpc_take\njnz r7 0\nrpc_return rR",
    "rpc_return rR",
    "rpc_result rR r5",
    "rpc_result rR r5",
    "set r3 1\nrpc_result rR r3",
    "set r3 2\nrpc_result rR r3",
    "rpc_result rR rR",
    "halt",
];

/// What a server may begin with.
pub const SERVING: &str = "rpc_take
jnz r7 4
rpc_return r0
jump 0
";

/// The words of the scripts.
pub const WORDS: [&str; 15] = [
    "a.0", "a.0", "a.0", "a.1", "a.1", "b.0", "b.0", "b.0", "c.0", "c.0", "c.1", "c.1", "ring 3",
    "ring 5", "ring 9",
];

/// How many words are drawn for a script.
pub const BURSTS: usize = 90;

/// A small board with all parts.
pub const BOARD: &str = "[board]
flash = [0x0, 0x400]
sram = [0x20000000, 0x1000]
peripherals = [0x40000000, 0x400]
secret = [0x200, 0x100]
words = [[0x200, 0x5EC2E700], [0x40000100, 0x12345678]]
heap = { base = 0x20000800, page = 32, count = 16 }
";

/// The grants and lines of box `a`.
pub const TABLES_OF_A: &str = "[[box.grant]]
base = 0x40000020
len = 0x60
rights = \"rw\"
[[box.grant]]
base = 0x40000080
len = 0x20
rights = \"rw\"
shared = true
[[box.irq]]
line = 3
handler = 5
[[box.irq]]
line = 5
handler = 9
";

/// The grants and the line of box `b`.
pub const TABLES_OF_B: &str = "[[box.grant]]
base = 0x40000080
len = 0x20
rights = \"rwx\"
shared = true
[[box.grant]]
base = 0x40000220
len = 0x1A0
rights = \"rw\"
[[box.irq]]
line = 9
handler = 7
";

/// The grants of box `c`.
pub const TABLES_OF_C: &str = "[[box.grant]]
base = 0x20000420
len = 0x3C0
rights = \"rw\"
[[box.grant]]
base = 0x400000C0
len = 0x20
rights = \"r\"
";

/// A register gateway for each operation, and a call gateway to each box.
pub const GATEWAYS: &str = "[[register]]
at = 0x40000100
op = \"read\"
boxes = [\"a\", \"b\"]
[[register]]
at = 0x40000100
op = \"read_and\"
mask = 0xFF00
boxes = [\"a\", \"c\"]
[[register]]
at = 0x40000080
op = \"write\"
boxes = [\"a\", \"b\", \"c\"]
[[register]]
at = 0x40000100
op = \"and\"
mask = 0xFF
boxes = [\"a\", \"b\"]
[[register]]
at = 0x40000100
op = \"or\"
mask = 0xF0F0
boxes = [\"b\", \"c\"]
[[register]]
at = 0x40000100
op = \"xor\"
mask = 0xFFFF0000
boxes = [\"a\", \"c\"]
[[register]]
at = 0x40000100
op = \"replace\"
mask = 0xFF00FF
boxes = [\"a\", \"b\", \"c\"]
[[gateway]]
box = \"a\"
function = 1
callers = [\"b\", \"c\"]
[[gateway]]
box = \"b\"
function = 2
callers = [\"a\", \"b\", \"c\"]
[[gateway]]
box = \"c\"
function = 3
callers = [\"a\", \"b\"]
";
