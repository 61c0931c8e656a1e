//! Rows of words, made by checks/word_lists.py.

// Words, each of which ends at one space, and the command that they are.
pub const GENERATED: &str = "\
dag export -- 5 => export|5\n\
pin rm /d/ => pin-rm|/d/\n\
files touch - /d/ x --nanos=999999999 => usage\n\
files read -o 7 --count x  => usage\n\
files write -o=5 /d/ -x=a1b2 => write|5|false|false|a1b2|/d/\n\
gen 5 0 => gen|5|0\n\
gen -- 00000000000000000001 7 => gen|1|7\n\
files chmod  -1 => usage\n\
batch => batch\n\
files stat /f => stat|/f\n\
dag export /f => export|/f\n\
dag export 18446744073709551616 => export|18446744073709551616\n\
dag export /d/ -- => export|/d/\n\
pull  => pull|\n\
files write -te /a/b => write|0|true|true|.|/a/b\n\
pull /d/ => pull|/d/\n\
files stat a=b => stat|a=b\n\
files touch -- 1_0 --nanos 5 /d/ => usage\n\
files write -x0 -te  => usage\n\
check -- /f --absent /a/b => usage\n\
serve => serve\n\
pin add x => pin-add|x\n\
gen 7 -- 7 => gen|7|7\n\
gen -- 18446744073709551615 => usage\n\
files strip - => strip|-\n\
files read  -n 18446744073709551615 --offset=20001 /f => usage\n\
files read /d/ -o 7 --count 20001 => read|7|20001|/d/\n\
files truncate 20001 x => usage\n\
pull - => pull|-\n\
pin add - => pin-add|-\n\
repo gc => gc\n\
dag export x => export|x\n\
get /a/b - => get|/a/b|-\n\
files ls /f -- => ls|false|/f\n\
init --threshold=+1 --width=7 --chunk=18446744073709551616 -- => usage\n\
cat -- a=b => cat|a=b\n\
files chmod a=b -1 => usage\n\
check /d/ - => check|false|/d/|-\n\
add -- /d/ --to-files=a=b => usage\n\
files read  -o=1_0 => usage\n\
gen =  => usage\n\
pull -- => usage\n\
get /a/b a=b a=b => usage\n\
check --absent /f /f => check|true|/f|/f\n\
add  -- => add|false|false|.|\n\
files read x --count=0 => read|0|0|x\n\
gen 1_0  => usage\n\
get  /d/ => get||/d/\n\
files read -n=20001 /a/b -o=00000000000000000001 => read|1|20001|/a/b\n\
init --threshold x 0 --chunk 7 --width 18446744073709551616 => usage\n\
files mv /f /a/b => mv|/f|/a/b\n\
dag same /a/b => same|/a/b\n\
check /f /a/b => check|false|/f|/a/b\n\
cat x -- => cat|x\n\
dag import -- => import\n\
pull 7 => pull|7\n\
batch -- => batch\n\
files write -o=5 -e --create -t 0 => usage\n\
pin rm => usage\n\
gen a=b 20000 => usage\n\
files chmod x -- 0755 => usage\n\
files mv  - => mv||-\n\
add -n --recursive 5 --to-files /d/ => usage\n\
files write -t --create --offset 5 => usage\n\
prove --absent /f => prove|true|/f\n\
files stat -- => usage\n\
files rm --recursive x => rm|true|x\n\
gen 7 18446744073709551615 => gen|7|18446744073709551615\n\
files cp  - => cp||-\n\
files ls /f => ls|false|/f\n\
repo gc -- => gc\n\
prove --absent=1 - --absent /d/ => usage\n\
init --width=7 --chunk=5 => init|5|7|262144\n\
init --threshold=20001 => init|262144|174|20001\n\
add -nr -- => add|true|true|.|.\n\
prove /a/b => prove|false|/a/b\n\
add /a/b -nr --to-files= -- => usage\n\
files write -x  a=b => write|0|false|false||a=b\n\
init --threshold=1_0 --chunk 20001 --width 5 => usage\n\
files rm 1_0 -- => rm|false|1_0\n\
files read -o=+1 a=b => usage\n\
files read 18446744073709551615 -n7 => read|0|7|18446744073709551615\n\
check a=b  --absent => check|true|a=b|\n\
files rm -r /d/ => rm|true|/d/\n\
files write -te 000000000000000000001 -o=20000 --hex=ABC /f => usage\n\
files ls a=b => ls|false|a=b\n\
files mkdir /a/b => mkdir|false|/a/b\n\
add --to-files -f --to-files -- -r 000000000000000000001 => usage\n\
add --to-files=/a/b x  -- => usage\n\
files touch --nanos 5 - 9223372036854775808 => usage\n\
dag same  => same|\n\
get /d/  => get|/d/|\n\
files read  -n=5 -- --offset=+1 => usage\n\
pin rm 18446744073709551616 -- => pin-rm|18446744073709551616\n\
files ls /d/ -l => ls|true|/d/\n\
dag export -1 => usage\n\
files rm a=b => rm|false|a=b\n\
init --chunk -- 20000 --width  => usage\n\
files truncate  20001 -- => truncate||20001\n\
files read /f -o 20001 -n= /f => usage\n\
files cp /a/b /f => cp|/a/b|/f\n\
files rm --recursive /d/ --recursive=1 => usage\n\
files rm => usage\n\
files cp  => usage\n\
add 0 -nr => add|true|true|.|0\n\
gen -- /f 7 => usage\n\
files rm  => rm|false|\n\
pin rm 20000 => pin-rm|20000\n\
check --absent => usage\n\
files chmod -1 /a/b => usage\n\
pin rm /a/b -- => pin-rm|/a/b\n\
add a=b --only-hash --to-files = => usage\n\
files write -x ABC --create /d/ => usage\n\
files truncate 18446744073709551615 /a/b => usage\n\
check x --absent /f => check|true|x|/f\n\
files read -n -o  - => usage\n\
files write -x 0 --offset=5 -te  => usage\n\
cat /f x => usage\n\
get /a/b a=b => get|/a/b|a=b\n\
init --threshold 5 - => usage\n\
prove --absent a=b => prove|true|a=b\n\
dag export  => export|\n\
files write  --create --offset +1 => usage\n\
init --chunk=20000 --width=20000 => usage\n\
init --chunk=18446744073709551616 --threshold=20000 => usage\n\
files read -- -o 7 -n5 /a/b => usage\n\
files mv /f a=b -- => mv|/f|a=b\n\
dag same /f => same|/f\n\
files cp x /d/ => cp|x|/d/\n\
dag import => import\n\
files mv   => mv||\n\
files read -o 00000000000000000001 a=b => read|1|18446744073709551615|a=b\n\
pin ls => pin-ls\n\
files write -x0 20001 -o=5 -e => usage\n\
files cp a=b a=b => cp|a=b|a=b\n\
files rm - => rm|false|-\n\
files mkdir -p /a/b => mkdir|true|/a/b\n\
files mkdir -p a=b => mkdir|true|a=b\n\
pull a=b => pull|a=b\n\
files write -te -o20001 /f => write|20001|true|true|.|/f\n\
dag same x => same|x\n\
dag same => usage\n\
files read -nx = -o20001 --offset 00000000000000000001 => usage\n\
files mv   -- => mv||\n\
pin rm x => pin-rm|x\n\
init --chunk=7 --width 20000 --threshold 20001 => usage\n\
files ls 1_0 -- => ls|false|1_0\n\
add -nr x a=b => usage\n\
files stat -- /f => stat|/f\n\
pull -- - x => usage\n\
gen /f 18446744073709551615 => usage\n\
files mkdir --parents /f => mkdir|true|/f\n\
files read --count 7 -n 000000000000000000001 /a/b -o 7 => usage\n\
files truncate 18446744073709551616  => usage\n\
files cp 18446744073709551616 /a/b => cp|18446744073709551616|/a/b\n\
files read --count -- 20000 /f => usage\n\
files stat x /d/ => usage\n\
pin add a=b => pin-add|a=b\n\
files cp -- /a/b -- => cp|/a/b|--\n\
files stat  => stat|\n\
serve - -- => usage\n\
files strip a=b => strip|a=b\n\
init --width=00000000000000000001 --width 18446744073709551615 --threshold 20000 => usage\n\
files chmod  => usage\n\
gen 7 20000 => gen|7|20000\n\
files chmod 64x /d/ => usage\n\
pin add  => pin-add|\n\
files mv a=b /f => mv|a=b|/f\n\
files cp => usage\n\
files strip /a/b -1 => usage\n\
pin add 5 => pin-add|5\n\
get  18446744073709551615 => get||18446744073709551615\n\
files write -o5 -te -x00fF /d/ => write|5|true|true|00ff|/d/\n\
init -- --threshold=5 --width -1 --chunk 1_0 => usage\n\
pin rm  => pin-rm|\n\
gen  a=b => usage\n\
files chmod x 0 => usage\n\
get -- 1_0 => usage\n\
dag import -- /f => usage\n\
files mv 1_0 => usage\n\
cat --  => cat|\n\
check  a=b -- => check|false||a=b\n\
add - --to-files=- => add|false|false|-|-\n\
gen -- 0 18446744073709551615 => gen|0|18446744073709551615\n\
cat /a/b  -- => usage\n\
prove -- --absent /a/b => usage\n\
files strip => usage\n\
check /f /f => check|false|/f|/f\n\
files ls - --long -- => ls|true|-\n\
files cp -  => cp|-|\n\
files mv /d/ /a/b => mv|/d/|/a/b\n\
add --recursive=1 --to-files= -- -r => usage\n\
files write --hex=00fF /f /a/b -o 5 -t -e --create => usage\n\
pin add /d/ => pin-add|/d/\n\
files touch --nanos 9223372036854775807 0 /f => usage\n\
check a=b --absent - => check|true|a=b|-\n\
gen 20000 20001 => gen|20000|20001\n\
gen => usage\n\
files write -o20000 --hex --  x -te => usage\n\
files strip /a/b => strip|/a/b\n\
files truncate /f - => usage\n\
gen /f 20001 => usage\n\
files rm -- x --recursive => usage\n\
add --only-hash -- --to-files=/ => add|false|true|.|--to-files=/\n\
files stat -- - => stat|-\n\
init --threshold=18446744073709551615 -- => usage\n\
files read -f -n20001 --offset 20000 /a/b => usage\n\
files stat +1 -- => stat|+1\n\
dag export -- => usage\n\
files chmod 77777 /a/b => usage\n\
init --width 00000000000000000001 --chunk=0 --threshold=20001 => usage\n\
get /d/ /f => get|/d/|/f\n\
files chmod a=b -- 0755 => usage\n\
prove 000000000000000000001 -- --absent => usage\n\
files rm --recursive /d/ => rm|true|/d/\n\
init --width -- 18446744073709551616 --threshold=5 => usage\n\
prove --absent /d/ -- --absent => usage\n\
files rm -- x => rm|false|x\n\
get  => usage\n\
files cp a=b /a/b => cp|a=b|/a/b\n\
add -- -r --to-files=/f => usage\n\
files read /d/ --offset 20000 => read|20000|18446744073709551615|/d/\n\
prove -- /a/b => prove|false|/a/b\n\
files strip /f => strip|/f\n\
files truncate a=b => usage\n\
files write --create --hex=0 -o 20000 -o20001 a=b => usage\n\
files stat - => stat|-\n\
repo gc -f => usage\n\
prove /a/b --absent => prove|true|/a/b\n\
check --absent /f - -- => check|true|/f|-\n\
init --chunk 20000 => init|20000|174|262144\n\
init --threshold=20000 --chunk 0 --width 5 => usage\n\
add x --recursive => add|true|false|.|x\n\
cat /d/ => cat|/d/\n\
files chmod   => usage\n\
files strip /d/ => strip|/d/\n\
get  /f => get||/f\n\
files rm -r => usage\n\
cat -- 0 => cat|0\n\
files write /f -o 000000000000000000001 -- -te -x=0 => usage\n\
get x - => get|x|-\n\
pin add /a/b -- => pin-add|/a/b\n\
files write /a/b --truncate -x00fF -e => write|0|true|true|00ff|/a/b\n\
files read -n=-1 --offset 18446744073709551616 /a/b => usage\n\
files mv /d/  -- => mv|/d/|\n\
files touch /f 1000000000 /d/ --nanos 5 => usage\n\
files write --create --offset 7 -x=ABC 1_0 --truncate => usage\n\
init --chunk 20001 --width 20001 --threshold=5 => usage\n\
files write  -- -te -x0 => usage\n\
batch - => usage\n\
prove /d/ --absent /d/ => usage\n\
files touch 20001 9223372036854775807 => touch|0|20001|9223372036854775807\n\
files stat -- /d/ => stat|/d/\n\
files read --offset=20000 --count=5 a=b -- => read|20000|5|a=b\n\
pin ls -- a=b => usage\n\
files write -te -o0 /f --hex 0g => usage\n\
files rm -r --  => rm|true|\n\
cat - => cat|-\n\
files read --count 18446744073709551616 /f -o 18446744073709551615 => usage\n\
files chmod /a/b 77777 => usage\n\
files write -te x => write|0|true|true|.|x\n\
files write /f --hex a1b2 /d/ -o 5 -te => usage\n\
files mkdir -p  => mkdir|true|\n\
files touch /a/b /a/b --nanos=1000000000 9223372036854775808 => usage\n\
files read -n20000 /a/b => read|0|20000|/a/b\n\
files read  -- --count -1 => usage\n\
files rm 5 -- => rm|false|5\n\
files read /d/ --count 5 -- => read|0|5|/d/\n\
files ls  => ls|false|\n\
files chmod 77777  => usage\n\
pin rm -- /f a=b => usage\n\
prove --  --absent => usage\n\
pin rm a=b /a/b => usage\n\
pin add /f => pin-add|/f\n\
files read -n 00000000000000000001  --offset=5 => read|5|1|\n\
files truncate - 7 => truncate|-|7\n\
cat x => cat|x\n\
init --chunk=18446744073709551615 => usage\n\
files write --create -o 20000 /d/ -x00fF => write|20000|true|false|00ff|/d/\n\
files read --count 7 /f -o20000 => read|20000|7|/f\n\
files ls 00000000000000000001 -- --long => usage\n\
get -1 x => usage\n\
init -- --width=18446744073709551615 => usage\n\
add a=b --to-files -f --recursive => usage\n\
cat => usage\n\
pin add /a/b => pin-add|/a/b\n\
files chmod -1 -f => usage\n\
add 00000000000000000001 -nr => add|true|true|.|00000000000000000001\n\
files read --count 1_0 --offset=-1  => usage\n\
pull x => pull|x\n\
check /a/b 18446744073709551616 --absent -- => check|true|/a/b|18446744073709551616\n\
init --chunk 20000 --width=7 --width=0 --threshold 20001 => usage\n\
pin ls -- => pin-ls\n\
get -- /d/ +1 => get|/d/|+1\n\
files cp /f => usage\n\
files rm /d/ => rm|false|/d/\n\
files mv -f  => usage\n\
files mkdir /d/ -- -p --parents => usage\n\
files cp x  => cp|x|\n\
pull /a/b => pull|/a/b\n\
files truncate 20000 -- /a/b => usage\n\
files cp /d/ --  => cp|/d/|\n\
files write --create -o 1_0 --hex ABC = -- -f => usage\n\
serve -- => serve\n\
files mkdir  => mkdir|false|\n\
files mkdir -p => usage\n\
files truncate - - - => usage\n\
check /d/ 000000000000000000001 => check|false|/d/|000000000000000000001\n\
files read --offset=00000000000000000001 /d/ => read|1|18446744073709551615|/d/\n\
files chmod x 77777 => usage\n\
files touch -- 9223372036854775808 --nanos 0 - => usage\n\
pull -1 => usage\n\
add -nr --to-files=-f /d/ => usage\n\
init -- --chunk 20000 --threshold=1_0 --width=7 => usage\n\
files write -e -e -x=00fF /a/b -t --offset 7 => usage\n\
init --width=5 --width=+1 --threshold=7 => usage\n\
get -- /d/ a=b => get|/d/|a=b\n\
init --threshold=20000 --chunk=7 => init|7|174|20000\n\
check --absent -- - - --absent=1 => usage\n\
files mv -- 1_0 => usage\n\
files rm a=b --recursive => rm|true|a=b\n\
files mv - a=b => mv|-|a=b\n\
files strip -1 => usage\n\
add a=b -nr => add|true|true|.|a=b\n\
pin rm a=b => pin-rm|a=b\n\
files mv -- /a/b /a/b => mv|/a/b|/a/b\n\
add x -r --to-files -- = => usage\n\
dag export a=b => export|a=b\n\
add --to-files -f -nr  => usage\n\
pin add /f -- => pin-add|/f\n\
files mv 1_0 - => mv|1_0|-\n\
files read 20000 --count 18446744073709551616 -o=x => usage\n\
files rm -r 1_0 -r => usage\n\
files truncate 0 -- a=b => usage\n\
files write -x 0g --create - -- -x  --create=1 => usage\n\
add -- -nr --to-files=/ 18446744073709551616 /a/b => usage\n\
files touch 5 -f --nanos=9223372036854775808 => usage\n\
dag export /d/ => export|/d/\n\
files touch -- - /f => usage\n\
init --width 1_0 --chunk=20001 --threshold +1 => usage\n\
files truncate a=b  => usage\n\
files mkdir - => mkdir|false|-\n\
add --only-hash  => add|false|true|.|\n\
pull 20000 => pull|20000\n\
files write x -- -te --hex=ABC => usage\n\
get a=b -- /a/b => get|a=b|/a/b\n\
add --to-files=a=b --recursive -- => add|true|false|a=b|.\n\
files truncate x -- 7 => truncate|x|7\n\
files touch - --nanos -- 9223372036854775808 /d/ --nanos=5 => usage\n\
files ls -l /f => ls|true|/f\n\
files touch --nanos 9223372036854775808 -- 1000000000 x => usage\n\
prove --absent /a/b => prove|true|/a/b\n\
prove a=b --absent => prove|true|a=b\n\
init --threshold 20001 --width 7 -- --chunk 20000 => usage\n\
files ls -- a=b -l => usage\n\
files write -t -x00fF -e -o 20000 /f => write|20000|true|true|00ff|/f\n\
files mv  => usage\n\
files read --offset=7 a=b => read|7|18446744073709551615|a=b\n\
files touch 0 - --nanos 0 => touch|0|0|-\n\
cat  => cat|\n\
files write /d/ --truncate --hex=00fF => write|0|false|true|00ff|/d/\n\
files read /a/b -o20000 -n=18446744073709551615 => read|20000|18446744073709551615|/a/b\n\
cat /d/ /f => usage\n\
files chmod /f 64x => usage\n\
init --threshold=20001 --chunk -- 7 --width=7 => usage\n\
files stat a=b - => usage\n\
get /f -- -- => get|/f|--\n\
dag export /d/  => usage\n\
files write --truncate  -o=7 -x=a1b2 => write|7|false|true|a1b2|\n\
dag same /f -- => same|/f\n\
add /a/b -n => add|false|true|.|/a/b\n\
files strip -f => usage\n\
get a=b a=b => get|a=b|a=b\n\
serve /d/ => usage\n\
files read --count=7 = -- => read|0|7|=\n\
files read -n 7 -- /d/ => read|0|7|/d/\n\
files write -t a=b --hex=a1b2 => write|0|false|true|a1b2|a=b\n\
gen /a/b -- 20001 => usage\n\
dag export /a/b => export|/a/b\n\
pin add 18446744073709551615 => pin-add|18446744073709551615\n\
files strip x => strip|x\n\
add --recursive x -- => add|true|false|.|x\n\
files stat 0 => stat|0\n\
repo gc -- /a/b => usage\n\
files read /d/ -- --offset=7 => usage\n\
add --to-files=a=b -r /a/b => add|true|false|a=b|/a/b\n\
gen - 20000 => usage\n\
files ls /f --long => ls|true|/f\n\
files write /f --hex=0g -o-1 => usage\n\
files strip --  => strip|\n\
get a=b -- => usage\n\
pin rm 1_0 -- => pin-rm|1_0\n\
files write --hex=0g a=b --offset 5 -te => usage\n\
add -r --to-files = /a/b => add|true|false|=|/a/b\n\
get x /d/ => get|x|/d/\n\
get - /d/ => get|-|/d/\n\
files stat /a/b => stat|/a/b\n\
files read / => read|0|18446744073709551615|/\n\
gen 20001 -- 20000 => usage\n\
files read -o5 -- /f -n+1 => usage\n\
add /d/ --to-files - -nr => usage\n\
init -- --chunk  --threshold=20000 => usage\n\
files write /a/b -e --hex=0 --offset 20001 => usage\n\
files ls a=b -- --long => usage\n\
add a=b --recursive --to-files=/ => add|true|false|/|a=b\n\
files chmod 0 /f => chmod|0|/f\n\
add 0 --to-files=/a/b  -n => usage\n\
gen / /d/ => usage\n\
files rm /f => rm|false|/f\n\
files truncate -1 /d/ => usage\n\
init --threshold 5 --chunk 7 => init|7|174|5\n\
pin add  -- x => usage\n\
add --recursive -r => usage\n\
files chmod - 0755 => usage\n\
files write --create  -xa1b2 -o=7 => write|7|true|false|a1b2|\n\
init --width= --chunk=20001 => usage\n\
init --threshold 1_0 +1 --chunk=000000000000000000001 --width=20001 => usage\n\
dag same a=b => same|a=b\n\
init --threshold +1 - --width 00000000000000000001 --threshold=20001 => usage\n\
files chmod 7777  => chmod|4095|\n\
files strip 000000000000000000001 => strip|000000000000000000001\n\
files rm --recursive  -- => rm|true|\n\
add -nr => add|true|true|.|.\n\
files cp 20000 --  => cp|20000|\n\
add -nr --to-files=a=b a=b => usage\n\
files cp /a/b - => cp|/a/b|-\n\
files mkdir a=b -p => mkdir|true|a=b\n\
prove a=b -- --absent => usage\n\
files mkdir a=b --parents => mkdir|true|a=b\n\
files mkdir /d/ a=b -- -p => usage\n\
init -- --width=7 => usage\n\
cat -- 000000000000000000001 => cat|000000000000000000001\n\
add x -nr => add|true|true|.|x\n\
files truncate  20000 => truncate||20000\n\
files rm -- x -r => usage\n\
dag export --  x => usage\n\
files write -t /d/ --offset 20001 --truncate=1 => usage\n\
init --width 20000 --chunk 18446744073709551615 --threshold +1 => usage\n\
init --chunk 5 --threshold 18446744073709551615 --width 000000000000000000001 --chunk 7 => usage\n\
files truncate -- - /f => usage\n\
files write -x0g -o000000000000000000001 /f -te => usage\n\
files read -o=20001 -n 20001 => usage\n\
pin rm / => pin-rm|/\n\
files write -ox a=b -x 0g --create => usage\n\
files ls -l a=b -- => ls|true|a=b\n\
pull => usage\n\
files write -te - -x= => write|0|true|true||-\n\
files write -x=0g -o0 -te /a/b => usage\n\
files stat /d/ => stat|/d/\n\
add -nr a=b --to-files /d/ -- => usage\n\
files cp 7 -- /a/b => cp|7|/a/b\n\
files write -e --offset=7 x -t => write|7|true|true|.|x\n\
prove --absent --absent => usage\n\
files ls -l --  => ls|true|\n\
files cp /f x => cp|/f|x\n\
files touch /d/ 9223372036854775808 => usage\n\
cat -- x => cat|x\n\
files ls - => ls|false|-\n\
get /a/b /d/ => get|/a/b|/d/\n\
files touch 5  => touch|0|5|\n\
pull -- a=b => pull|a=b\n\
files truncate  20001 => truncate||20001\n\
init -- --threshold 5 --chunk 5 => usage\n\
add -n --to-files / /a/b /d/ => usage\n\
files write --offset 5 -- x -x --truncate => usage\n\
pin add -- => usage\n\
init --width 5 --threshold 20000 => init|262144|5|20000\n\
add -n /a/b -r => add|true|true|.|/a/b\n\
check - --absent /d/ => check|true|-|/d/\n\
files mkdir --  => mkdir|false|\n\
files cp -- /f a=b => cp|/f|a=b\n\
files write -t /f --hex=00fF => write|0|false|true|00ff|/f\n\
add 7 -r --to-files=/f => add|true|false|/f|7\n\
prove --absent => usage\n\
files ls -- -l a=b => usage\n\
gen 20000 7 => gen|20000|7\n\
files touch 1000000000  --nanos=1000000000 => usage\n\
prove x --absent => prove|true|x\n\
pin rm 5 => pin-rm|5\n\
files write 000000000000000000001 -- => write|0|false|false|.|000000000000000000001\n\
files read --count=20001 / -- -o=7 => usage\n\
check - a=b --absent => check|true|-|a=b\n\
files read  -n --offset 20001 => usage\n\
files read -n 5 -- -- -o20000 => usage\n\
dag same - => same|-\n\
init --width=0 --threshold 20000 => usage\n\
files write -x=00fF --offset 1_0 --truncate - --create => usage\n\
files write -e  => write|0|true|false|.|\n\
files ls --long - -- => ls|true|-\n\
check --absent /d/ => usage\n\
add  --to-files=a=b => add|false|false|a=b|\n\
init --threshold 7 --chunk -- 18446744073709551616 --width=0 => usage\n\
init --chunk 7 --threshold=5 /a/b --width=5 => usage\n\
add / --recursive => add|true|false|.|/\n\
check -- --absent x => check|false|--absent|x\n\
dag same /d/ x => usage\n\
prove --absent --absent=1 /f => usage\n\
files touch = /a/b -- --nanos 0 => usage\n\
files read a=b --count 20001 => read|0|20001|a=b\n\
gen 5 a=b => usage\n\
files read --count=5 /f => read|0|5|/f\n\
files read --count=20000 --offset 1_0 a=b => usage\n\
files rm / => rm|false|/\n\
files touch a=b --nanos=9223372036854775808 => usage\n\
gen 20001 +1 => usage\n\
files read => usage\n\
files read /a/b -o20001 --offset=5 => usage\n\
files rm +1 --recursive => rm|true|+1\n\
files cp   => cp||\n\
pull /f => pull|/f\n\
init --threshold=5 --chunk=20001 --width 20001 -- => usage\n\
files truncate 7 /a/b => usage\n\
init --chunk 7 x -- --width=20000 => usage\n\
files write -e -- - --offset x => usage\n\
files chmod /d/ -- 7777 => usage\n\
get /d/ -- x => get|/d/|x\n\
files touch a=b x => usage\n\
init --threshold=000000000000000000001 --width=20000 --chunk 00000000000000000001 => usage\n\
add --to-files=/ /f -n => usage\n\
files touch a=b /d/ => usage\n\
";
