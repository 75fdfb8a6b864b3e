/// A box of 256 bytes that stores a word in its own memory and loads it again.
pub const ONE_BOX: &str = "format = 1
script = [\"a.0\", \"a.0\", \"a.0\", \"a.0\"]
[board]
flash = [0x0, 0x100000]
sram = [0x20000000, 0x20000]
peripherals = [0x40000000, 0x100000]
[[box]]
name = \"a\"
size = 256
[[box.thread]]
program = \"set r0 0x20000000\\nstore32 r0 r0 4\\nload32 r1 r0 4\\nhalt\"
";

/// The log of `ONE_BOX`, with `Z` for a word that is zero.
pub const ONE_BOX_LOG: &str = "unit switch a
turn a.0 ok
unit access write 4 0x20000004 slot 1
turn a.0 ok
unit access read 4 0x20000004 slot 1
turn a.0 ok 0x20000000
turn a.0 halted
thread a.0 halted 4 0x20000000 0x20000000 Z Z Z Z Z Z
";

/// What `ONE_BOX` is resolved to.
pub const ONE_BOX_CHECK: &str = "box a
item rx 0x00000000 0x00100000
item rw 0x20000000 0x00000100
server 0
thread a.0 steps 10000
0 set r0 0x20000000
1 store32 r0 r0 0x00000004
2 load32 r1 r0 0x00000004
3 halt
";

/// A main box that calls a box with a secret, and a sensor with an interrupt line and a grant.
pub const SENSOR_BOARD: &str = "format = 1
script = [\"main.0\", \"main.0\", \"crypto.0\", \"ring 37\",
  \"sensor.0\", \"sensor.0\", \"sensor.0\", \"sensor.0\", \"sensor.0\", \"sensor.0\", \"sensor.0\",
  \"crypto.0\", \"crypto.0\", \"crypto.0\", \"crypto.0\", \"crypto.0\",
  \"main.0\", \"main.0\", \"sensor.0\"]
[board]
flash = [0x00000000, 0x00080000]
sram = [0x20000000, 0x00010000]
peripherals = [0x40000000, 0x00080000]
secret = [0x00070000, 0x00010000]
words = [[0x00070000, 0x5EC2E700], [0x40011004, 0x00000041]]
heap = { base = 0x20008000, page = 1024, count = 16 }
[[box]]
name = \"main\"
size = 2048
[[box.thread]]
program = \"\"\"
set r0 0x11
rpc_sync 0 20
halt
\"\"\"
[[box]]
name = \"sensor\"
size = 512
[[box.grant]]
base = 0x40011000
len = 0x1C
rights = \"rw\"
round = \"up\"
[[box.irq]]
line = 37
handler = 3
[[box.thread]]
program = \"\"\"
set r4 0x20000800
irq_on 37
jump 2
set r5 0x40011000   ; the handler
load32 r1 r5 4
store32 r1 r4 0
irq_return
\"\"\"
[[box]]
name = \"crypto\"
size = 1000
secret = true
[[box.thread]]
program = \"\"\"
rpc_take
jnz r7 0
set r5 0x00070000
load32 r6 r5 0
eor r0 r0 r6
rpc_return r0
jump 0
\"\"\"
[[gateway]]
box = \"crypto\"
function = 1
callers = [\"main\"]
[[gateway]]
box = \"crypto\"
function = 2
callers = [\"main\", \"sensor\"]
[[device]]
rings = [37, 37, 37]
[[device]]
rings = [37]
";

/// What `SENSOR_BOARD` is resolved to.
pub const SENSOR_BOARD_CHECK: &str = "box main
item rx 0x00000000 0x00070000
item rw 0x20000000 0x00000800
server 0
thread main.0 steps 10000
0 set r0 0x00000011
1 rpc_sync 0 20
2 halt
box sensor
item rx 0x00000000 0x00070000
item rw 0x20000800 0x00000200
item rw 0x40011000 0x00000020
line 37 handler 3
server 0
thread sensor.0 steps 10000
0 set r4 0x20000800
1 irq_on 37
2 jump 2
3 set r5 0x40011000
4 load32 r1 r5 0x00000004
5 store32 r1 r4 0x00000000
6 irq_return
box crypto
item rx 0x00000000 0x00080000
item rw 0x20000C00 0x00000400
server 0
thread crypto.0 steps 10000
0 rpc_take
1 jnz r7 0
2 set r5 0x00070000
3 load32 r6 r5 0x00000000
4 eor r0 r0 r6
5 rpc_return r0
6 jump 0
";

/// A heap of eight pages of 1 KiB, which are one group.
pub const HEAP: &str = "heap = { base = 0x20008000, page = 1024, count = 8 }\n";

/// The log of `SENSOR_BOARD`, with `Z` for a word that is zero.
pub const SENSOR_BOARD_LOG: &str = "unit switch main
turn main.0 ok
turn main.0 posted 1
unit switch crypto
start crypto.0 main.0#1 ok 0x00000001 0x00000011 Z Z Z
ring 37 by 0
unit switch sensor
turn sensor.0 ok
turn sensor.0 ok
turn sensor.0 irq 37
turn sensor.0 ok
unit rotate 2 0x40011000 0x13000009
unit access read 4 0x40011004 slot 2
turn sensor.0 ok 0x00000041
unit access write 4 0x20000800 slot 1
turn sensor.0 ok
turn sensor.0 ok
unit switch crypto
turn crypto.0 ok
turn crypto.0 ok
unit access read 4 0x00070000 slot 0
turn crypto.0 ok 0x5EC2E700
turn crypto.0 ok
turn crypto.0 ok
unit switch main
turn main.0 ok 0x5EC2E711
turn main.0 halted
unit switch sensor
turn sensor.0 ok
thread main.0 halted 4 0x5EC2E711 Z Z Z Z Z Z Z
thread sensor.0 ready 8 Z Z Z Z 0x20000800 Z Z Z
thread crypto.0 ready 6 0x5EC2E711 Z Z Z 0x00000001 0x00070000 0x5EC2E700 Z
";
