//! Rows of words and lines.

// Words, each of which ends at one space, and the command that they are.
pub const ROWS: &str = "\
init => init|262144|174|262144\n\
init --chunk 1 => init|1|174|262144\n\
init --chunk=1 => init|1|174|262144\n\
init --width 2 => init|262144|2|262144\n\
init --width=2 => init|262144|2|262144\n\
init --threshold 0 => init|262144|174|0\n\
init --threshold=0 => init|262144|174|0\n\
init --chunk 1048576 --width 1024 --threshold 1048576 => init|1048576|1024|1048576\n\
init --threshold=1 --width=3 --chunk=2 => init|2|3|1\n\
init --width 3 --chunk 00000000000000000001 => init|1|3|262144\n\
init -- => init|262144|174|262144\n\
add => add|false|false|.|.\n\
add -r f => add|true|false|.|f\n\
add f -r => add|true|false|.|f\n\
add --recursive f => add|true|false|.|f\n\
add f --recursive => add|true|false|.|f\n\
add -n => add|false|true|.|.\n\
add --only-hash => add|false|true|.|.\n\
add -nr f => add|true|true|.|f\n\
add -rn f => add|true|true|.|f\n\
add -r f -n => add|true|true|.|f\n\
add --to-files /a => add|false|false|/a|.\n\
add --to-files=/a f => add|false|false|/a|f\n\
add f --to-files /a/ => add|false|false|/a/|f\n\
add --to-files / -r f => add|true|false|/|f\n\
add --to-files= => add|false|false||.\n\
add --to-files=a=b => add|false|false|a=b|.\n\
add -- -n => add|false|false|.|-n\n\
add -n -- -- => add|false|true|.|--\n\
add -n -- => add|false|true|.|.\n\
add - => add|false|false|.|-\n\
add  => add|false|false|.|\n\
add a=b => add|false|false|.|a=b\n\
files chmod 644 /k => chmod|420|/k\n\
files chmod 0 /k => chmod|0|/k\n\
files chmod 7777 /k => chmod|4095|/k\n\
files chmod 0007 /k => chmod|7|/k\n\
files chmod 755 -- -k => chmod|493|-k\n\
files touch 5 /k => touch|0|5|/k\n\
files touch --nanos 7 5 /k => touch|7|5|/k\n\
files touch 5 /k --nanos=999999999 => touch|999999999|5|/k\n\
files touch --nanos 0 0 / => touch|0|0|/\n\
files touch 9223372036854775807 /k => touch|0|9223372036854775807|/k\n\
files strip /k => strip|/k\n\
pin add x => pin-add|x\n\
pin rm x => pin-rm|x\n\
pin ls => pin-ls\n\
pin ls -- => pin-ls\n\
repo gc => gc\n\
prove /f => prove|false|/f\n\
prove --absent /f => prove|true|/f\n\
prove /f --absent => prove|true|/f\n\
check x /f => check|false|x|/f\n\
check --absent x /f => check|true|x|/f\n\
check x --absent /f => check|true|x|/f\n\
pull x => pull|x\n\
serve => serve\n\
cat x => cat|x\n\
cat -- -x => cat|-x\n\
cat x -- => cat|x\n\
cat  => cat|\n\
get x y => get|x|y\n\
get -- x -y => get|x|-y\n\
get x -- y => get|x|y\n\
files mkdir -p /a => mkdir|true|/a\n\
files mkdir /a -p => mkdir|true|/a\n\
files mkdir --parents /a => mkdir|true|/a\n\
files mkdir /a --parents => mkdir|true|/a\n\
files mkdir /a => mkdir|false|/a\n\
files mkdir -- -p => mkdir|false|-p\n\
files ls => ls|false|/\n\
files ls -l => ls|true|/\n\
files ls -l /a => ls|true|/a\n\
files ls /a -l => ls|true|/a\n\
files ls --long => ls|true|/\n\
files ls --long /a => ls|true|/a\n\
files ls /a --long => ls|true|/a\n\
files ls  => ls|false|\n\
files ls -- => ls|false|/\n\
files ls -l -- -l => ls|true|-l\n\
files stat / => stat|/\n\
files stat -- - => stat|-\n\
files read /f => read|0|18446744073709551615|/f\n\
files read -o 5 /f => read|5|18446744073709551615|/f\n\
files read /f -o 5 => read|5|18446744073709551615|/f\n\
files read -o5 /f => read|5|18446744073709551615|/f\n\
files read /f -o5 => read|5|18446744073709551615|/f\n\
files read -o=5 /f => read|5|18446744073709551615|/f\n\
files read /f -o=5 => read|5|18446744073709551615|/f\n\
files read --offset 5 /f => read|5|18446744073709551615|/f\n\
files read /f --offset 5 => read|5|18446744073709551615|/f\n\
files read --offset=5 /f => read|5|18446744073709551615|/f\n\
files read /f --offset=5 => read|5|18446744073709551615|/f\n\
files read -n 5 /f => read|0|5|/f\n\
files read -n5 /f => read|0|5|/f\n\
files read -n=5 /f => read|0|5|/f\n\
files read --count 5 /f => read|0|5|/f\n\
files read --count=5 /f => read|0|5|/f\n\
files read -n 3 -o 5 /f => read|5|3|/f\n\
files read -o 5 /f -n 3 => read|5|3|/f\n\
files read -o 18446744073709551615 -n 0 /f => read|18446744073709551615|0|/f\n\
files write /f => write|0|false|false|.|/f\n\
files write -e /f => write|0|true|false|.|/f\n\
files write --create /f => write|0|true|false|.|/f\n\
files write -t /f => write|0|false|true|.|/f\n\
files write --truncate /f => write|0|false|true|.|/f\n\
files write -x 00fF /f => write|0|false|false|00ff|/f\n\
files write -x00fF /f => write|0|false|false|00ff|/f\n\
files write -x=00fF /f => write|0|false|false|00ff|/f\n\
files write --hex 00fF /f => write|0|false|false|00ff|/f\n\
files write --hex=00fF /f => write|0|false|false|00ff|/f\n\
files write -o 7 /f => write|7|false|false|.|/f\n\
files write --offset=7 /f => write|7|false|false|.|/f\n\
files write -et -o 7 -x 01 /f => write|7|true|true|01|/f\n\
files write /f -x 01 -te -o7 => write|7|true|true|01|/f\n\
files write -etx01 /f => write|0|true|true|01|/f\n\
files write --hex= /f => write|0|false|false||/f\n\
files write --hex  /f => write|0|false|false||/f\n\
files truncate /f 0 => truncate|/f|0\n\
files truncate /f 18446744073709551615 => truncate|/f|18446744073709551615\n\
files truncate -- -f 1 => truncate|-f|1\n\
files cp /a /b => cp|/a|/b\n\
files cp -- -a -b => cp|-a|-b\n\
files mv /a /b => mv|/a|/b\n\
files mv -- -a -b => mv|-a|-b\n\
files rm -r /d => rm|true|/d\n\
files rm /d -r => rm|true|/d\n\
files rm --recursive /d => rm|true|/d\n\
files rm /d --recursive => rm|true|/d\n\
files rm /d => rm|false|/d\n\
dag export c => export|c\n\
dag same c => same|c\n\
dag import => import\n\
batch => batch\n\
batch -- => batch\n\
dag import -- => import\n\
gen 0 0 => gen|0|0\n\
gen 20000 18446744073709551615 => gen|20000|18446744073709551615\n\
gen -- 1 2 => gen|1|2\n\
";

// Words that are no command.
pub const REFUSED: &str = "\
\x20=> usage\n\
files chmod 8 /k => usage\n\
files chmod 00644 /k => usage\n\
files chmod  /k => usage\n\
files chmod -1 /k => usage\n\
files chmod /k => usage\n\
files chmod 64x /k => usage\n\
files touch -5 /k => usage\n\
files touch 9223372036854775808 /k => usage\n\
files touch --nanos 1000000000 5 /k => usage\n\
files touch --nanos x 5 /k => usage\n\
files touch -n 7 5 /k => usage\n\
files touch /k => usage\n\
files touch 5 => usage\n\
files strip => usage\n\
files strip /a /b => usage\n\
pin => usage\n\
pin x => usage\n\
pin add => usage\n\
pin add x y => usage\n\
pin rm => usage\n\
pin ls x => usage\n\
pin --help => usage\n\
repo => usage\n\
repo ls => usage\n\
repo gc x => usage\n\
prove => usage\n\
prove -a /f => usage\n\
prove /f /g => usage\n\
prove --absent --absent /f => usage\n\
check x => usage\n\
check /f --absent => usage\n\
pull => usage\n\
pull x y => usage\n\
serve x => usage\n\
nonsense => usage\n\
INIT => usage\n\
-n => usage\n\
-n add => usage\n\
--help => usage\n\
--version => usage\n\
help => usage\n\
init x => usage\n\
init --chunk => usage\n\
init --chunk x => usage\n\
init --chunk  => usage\n\
init --chunk= => usage\n\
init --chunk +1 => usage\n\
init --chunk -1 => usage\n\
init --chunk -- 1 => usage\n\
init --chunk 0 => usage\n\
init --chunk 1048577 => usage\n\
init --width 1 => usage\n\
init --width 1025 => usage\n\
init --threshold 1048577 => usage\n\
init --threshold 4294967296 => usage\n\
init --threshold 18446744073709551616 => usage\n\
init --chunk 000000000000000000001 => usage\n\
init --chunk 1 --chunk 1 => usage\n\
init --chunk=1 --chunk=1 => usage\n\
init --chun 1 => usage\n\
init --Chunk 1 => usage\n\
init -h => usage\n\
init --help => usage\n\
init -V => usage\n\
init --version => usage\n\
init -- --chunk 1 => usage\n\
init --chunk 0x1 => usage\n\
init --chunk 1_0 => usage\n\
add -n -n => usage\n\
add -nn => usage\n\
add -n --only-hash => usage\n\
add -r -r => usage\n\
add -x => usage\n\
add --only => usage\n\
add --only-hash=true => usage\n\
add -n=1 => usage\n\
add f g => usage\n\
add -h => usage\n\
add --help => usage\n\
add -nh => usage\n\
add --to-files => usage\n\
add --to-files -a => usage\n\
add --to-files /a --to-files /b => usage\n\
add -n --to-files /a => usage\n\
add --to-files /a -n f => usage\n\
add --to-files /a/ => usage\n\
add --to-files / => usage\n\
add -- f g => usage\n\
add --recursive=false f => usage\n\
cat => usage\n\
cat x y => usage\n\
cat -x => usage\n\
cat -h => usage\n\
cat --help => usage\n\
get => usage\n\
get x => usage\n\
get x y z => usage\n\
get -x y => usage\n\
files => usage\n\
files nonsense => usage\n\
files MKDIR => usage\n\
files -p mkdir /a => usage\n\
files mkdir => usage\n\
files mkdir -p => usage\n\
files mkdir -p -p /a => usage\n\
files mkdir -p --parents /a => usage\n\
files mkdir /a /b => usage\n\
files mkdir --parent /a => usage\n\
files mkdir -pp /a => usage\n\
files ls -l -l => usage\n\
files ls /a /b => usage\n\
files ls --help => usage\n\
files ls -x => usage\n\
files stat => usage\n\
files stat -x => usage\n\
files stat /a /b => usage\n\
files rm => usage\n\
files rm -rf /d => usage\n\
files rm -r -r /d => usage\n\
files read => usage\n\
files read -o /f => usage\n\
files read -o x /f => usage\n\
files read -o 18446744073709551616 /f => usage\n\
files read -o 000000000000000000001 /f => usage\n\
files read -o -1 /f => usage\n\
files read -o 1 -o 1 /f => usage\n\
files read -o 1 --offset 1 /f => usage\n\
files read -n 1 -n 1 /f => usage\n\
files read -n /f => usage\n\
files read -n= /f => usage\n\
files read /f /g => usage\n\
files write => usage\n\
files write -e => usage\n\
files write -e -e /f => usage\n\
files write -t -t /f => usage\n\
files write -x 0 /f => usage\n\
files write -x 0g /f => usage\n\
files write -x /f => usage\n\
files write -x 00 -x 00 /f => usage\n\
files write -o x /f => usage\n\
files write -x 000 /f => usage\n\
files write --hex=0 /f => usage\n\
files truncate => usage\n\
files truncate /f => usage\n\
files truncate /f x => usage\n\
files truncate /f   => usage\n\
files truncate /f 18446744073709551616 => usage\n\
files truncate /f 1 2 => usage\n\
files truncate /f -1 => usage\n\
files cp => usage\n\
files cp /a => usage\n\
files cp /a /b /c => usage\n\
files mv => usage\n\
files mv /a => usage\n\
files mv /a /b /c => usage\n\
files cp -r /a /b => usage\n\
dag => usage\n\
dag nonsense => usage\n\
dag export => usage\n\
dag export c d => usage\n\
dag same => usage\n\
dag same c d => usage\n\
dag import c => usage\n\
dag import -x => usage\n\
batch x => usage\n\
batch -x => usage\n\
batch --help => usage\n\
gen => usage\n\
gen 1 => usage\n\
gen 1 2 3 => usage\n\
gen 20001 1 => usage\n\
gen x 1 => usage\n\
gen 1 x => usage\n\
gen 1 -1 => usage\n\
gen 18446744073709551616 1 => usage\n\
gen 1 18446744073709551616 => usage\n\
gen  1 => usage\n\
unixfs init => usage\n\
\x20init => usage\n\
";

// Lines and their words, each after `|`.
pub const LINES: &str = "\
\x20=> \n\
\x20   => \n\
a => |a\n\
a b => |a|b\n\
\x20 a   b   => |a|b\n\
a\tb => |a\tb\n\
a+b => |a+b\n\
a%20b c => |a b|c\n\
% => |%\n\
%4 => |%4\n\
%zz => |%zz\n\
%41%62 => |Ab\n\
%2f%2F => |//\n\
%25 => |%\n\
%2520 => |%20\n\
ä => |ä\n\
%c3%a4 => |ä\n\
%c3 => usage\n\
a %ff b => usage\n\
%e2%82 => usage\n\
";
