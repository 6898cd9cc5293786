//! What lines of scripts print. Each transcript is a script, and below each line what it prints, after a sign.
use sb_script::Detail;

/// What a run is about, whether words are asked for, and its lines. The lines WRITTEN, OFFERED and LINED are short for
/// several lines. In a line these words are short for others:
///
/// - T for 512 letters, P for 128 and Q for 127 of them.
/// - FRAME for the frame of a delta of one weight, and EMPTY for that of an empty delta.
pub(crate) type Transcript = (&'static str, Detail, &'static str);

/// The lines that a line of a transcript is short for. They are a first write of a, its Hello and the delta of all its
/// writes, or the way of both to b.
pub(crate) fn lines_behind(line: &[u8]) -> &[u8] {
    match line {
        b"WRITTEN" => b"put a w weight 5\n> version 1",
        b"OFFERED" => b"connect a 1\n> frame 1\noffer a a 0\n> frame 2",
        b"LINED" => b"connect b 2\n> frame 3\nline 2 1\n> lined\nline 2 2\n> lined",
        line => line,
    }
}

pub(crate) const TRANSCRIPTS: [Transcript; 21] = [
    (
        "a write is committed, taken and offered",
        Detail::Plain,
        "world 1024 breadth 2 a b
commit a w weight 5
> committed 1
take a
> took 1
offer a a 0
> frame 1
read a a w
> a w 1 weight 5
show 1
> FRAME
show 2
> nothing
",
    ),
    (
        "a write goes from node to node",
        Detail::Plain,
        "world 1024 breadth 100 a b
WRITTEN
OFFERED
show 2
> FRAME
LINED
piece 2 69
> taken 1
read b a w
> a w 1 weight 5
give a b 1
> EMPTY
> nothing
give a b 0
> FRAME
> stale
show 10
> nothing
",
    ),
    (
        "a value that is overwritten waits for the write in its place",
        Detail::Plain,
        "world 1024 breadth 100 a b
put a x text T
> version 1
put a y text T
> version 2
put a x text T
> version 3
OFFERED
LINED
piece 2 574
> nothing
piece 2 1
> taken 1
upto b a
> 2
read b a y
> a y 2 text T
read b a x
> none
read a a x
> a x 3 text T
",
    ),
    (
        "a text is the rest of its line",
        Detail::Plain,
        "world 1024 breadth 100 a b
put a t text a\\5cb\\0a
> version 1
read a a t
> a t 1 text a\\5cb\\0a
put a t text a\\41
> fault 4
put a t text  two  words
> version 2
read a a t
> a t 2 text  two  words
crash a t text is it lost kept
> crashed
restart a
> restarted 3
read a a t
> a t 3 text is it lost
crash a t text  kept
> fault 4
put a u text h\u{e9}
> version 4
commit a t removed
> committed 5
take a
> took 5
offer a a 3
> frame 1
show 1
> a7030000003a030001016100000000000000000000000000000003000000000000000500020175000000000000000404000368c3a90174000000000000000500
",
    ),
    (
        "a removal is a write",
        Detail::Plain,
        "world 1024 depth 100 a b
put a x weight 1
> version 1
commit a x removed
> committed 2
take a
> took 2
del a x
> fault 9
offer a a 0
> frame 1
show 1
> a7030000002a030001016100000000000000000000000000000000000000000000000200010178000000000000000200
put a x weight 2
> version 3
connect a 1
> frame 2
connect b 2
> frame 3
line 2 2
> lined
line 2 1
> lined
piece 2 99
> taken 1
close 2
> closed
upto b a
> 2
read b a x
> none
",
    ),
    (
        "a crash keeps a write",
        Detail::Plain,
        "world 1024 breadth 2 a b
crash a x weight 1 kept
> crashed
upto b a
> 0
read a a x
> fault 15
restart a
> restarted 1
read a a x
> a x 1 weight 1
put a y weight 2
> version 2
take a
> nothing
put a z weight 3
> fault 8
upto a a
> 2
upto c a
> nothing
",
    ),
    (
        "a crash loses a write",
        Detail::Plain,
        "world 1024 breadth 100 a b
crash a x weight 1 lost
> crashed
read a a x
> fault 15
give b a 0
> EMPTY
> fault 15
restart a
> restarted 0
put a x weight 2
> version 1
",
    ),
    (
        "what waited goes with a restart",
        Detail::Plain,
        "world 1024 breadth 100 a b
commit a x weight 2
> committed 1
upto a a
> 0
restart a
> restarted 1
take a
> nothing
read a a x
> a x 1 weight 2
",
    ),
    (
        "a frame is lost and another comes twice",
        Detail::Plain,
        "world 1024 breadth 100 a b
WRITTEN
OFFERED
show 2
> FRAME
put a x weight 6
> version 2
offer a a 1
> frame 3
connect b 2
> frame 4
connect a 2
> nothing
line 2 1
> lined
line 2 3
> lined
piece 2 1000
> gap
line 2 9
> nothing
line 2 0
> nothing
line 2 2
> lined
piece 2 56
> taken 1
line 2 2
> lined
piece 2 56
> stale
line 2 3
> lined
piece 2 56
> taken 1
upto b a
> 2
close 2
> closed
close 2
> nothing
piece 2 1
> nothing
ask 2
> nothing
show 5
> nothing
",
    ),
    (
        "a session asks and is answered",
        Detail::Plain,
        "world 1024 breadth 100 a b
WRITTEN
connect a 1
> frame 1
connect b 2
> frame 2
ask 2
> frame 3
line 1 2
> lined
line 1 3
> lined
piece 1 1000
> frame 4
> frame 5
show 4
> FRAME
line 2 1
> lined
line 2 4
> lined
line 2 5
> lined
piece 2 13
> nothing
piece 2 55
> nothing
piece 2 1
> taken 1
piece 2 1000
> frame 6
read b a w
> a w 1 weight 5
crash b w weight 1 lost
> crashed
ask 2
> nothing
connect b 2
> fault 15
",
    ),
    (
        "a node restarts inside a frame",
        Detail::Plain,
        "world 1024 breadth 100 a b
put a x addr P
> version 1
put a y addr Q
> version 2
OFFERED
LINED
piece 2 163
> nothing
restart b
> restarted 0
piece 2 10
> nothing
connect b 3
> frame 4
line 3 2
> lined
piece 3 316
> fault 22
piece 3 1
> nothing
connect b 4
> frame 5
line 4 1
> lined
line 4 2
> lined
piece 4 329
> taken 2
upto b a
> 2
",
    ),
    (
        "nodes that are not there and words that are none",
        Detail::Plain,
        "world 1024 breadth 100 a b
put c x weight 1
> nothing
give c b 0
> nothing
give a c 0
> EMPTY
> nothing
give a a 0
> EMPTY
> fault 24
read a c x
> none
upto a c
> 0
commit A X size 5
> fault 2
crash a X size 5 kept
> fault 3
put a x weight 05
> fault 4
take a
> nothing
connect a 1
> frame 7
connect b 1
> nothing
ask 1
> frame 8
show 8
> a703000000200201000000010161000000000000000000000000000000000000000000000000
",
    ),
    (
        "frames are said in words",
        Detail::Explained,
        "world 1024 breadth 100 a b
WRITTEN
put a x flag true
> version 2
del a x
> version 3
put a y addr h:1
> version 4
connect a 1
> frame 1
>   frame 1: hello, cluster sim, node a
ask 1
> frame 2
>   frame 2: digest, wants an answer, from the first name, to the last name, pairs 1
>     a upto 4
offer a a 0
> frame 3
>   frame 3: delta, blocks 1
>     block of a, after 0, upto 4, entries 3
>       a w 1 weight 5
>       a x 3 removed -
>       a y 4 addr h:1
offer a a 3
> frame 4
>   frame 4: delta, blocks 1
>     block of a, after 3, upto 4, entries 1
>       a y 4 addr h:1
offer a a 4
> frame 5
>   frame 5: delta, blocks 0
show 5
> EMPTY
>   frame 5: delta, blocks 0
show 6
> nothing
offer c a 0
> nothing
read a a x
> none
commit a X flag true
> fault 3
",
    ),
    (
        "texts are said in words",
        Detail::Explained,
        "world 1024 breadth 100 a b
put a t text a\\5cb\\0a
> version 1
put a u text two words
> version 2
offer a a 0
> frame 1
>   frame 1: delta, blocks 1
>     block of a, after 0, upto 2, entries 2
>       a t 1 text a\\5cb\\0a
>       a u 2 text two words
",
    ),
    (
        "frames of a give and replies are said in words",
        Detail::Explained,
        "world 1024 breadth 100 a b
WRITTEN
give a b 0
> FRAME
> taken 1
>   frame 1: hello, cluster sim, node a
>   frame 2: delta, blocks 1
>     block of a, after 0, upto 1, entries 1
>       a w 1 weight 5
>   frame 3: hello, cluster sim, node b
connect b 2
> frame 4
>   frame 4: hello, cluster sim, node b
ask 2
> frame 5
>   frame 5: digest, wants an answer, from the first name, to the last name, pairs 2
>     a upto 1
>     b upto 0
connect a 1
> frame 6
>   frame 6: hello, cluster sim, node a
line 1 4
> lined
line 1 5
> lined
piece 1 999
> frame 7
> frame 8
>   frame 7: delta, blocks 0
>   frame 8: digest, wants no answer, from the first name, to the last name, pairs 1
>     a upto 1
",
    ),
    (
        "a purge lets removals go, and the node goes down",
        Detail::Plain,
        "world 1024 breadth 100 a b
put a x weight 1
> version 1
put a y weight 2
> version 2
give a b 0
> a70300000045030001016100000000000000000000000000000000000000000000000200020178000000000000000102000000000000000101790000000000000002020000000000000002
> taken 2
del a x
> version 3
purge a 4
> fault 30
purge a 3
> purged 3
upto a a
> fault 15
restart a
> restarted 3
give a b 2
> a703000000320300010161000000000000000300000000000000000000000000000003000101790000000000000002020000000000000002
> taken 1
upto b a
> 3
read b a x
> none
read b a y
> a y 2 weight 2
connect b 1
> frame 7
line 1 1
> lined
line 1 2
> lined
piece 1 88
> stale
put a x weight 9
> version 4
",
    ),
    (
        "a trim lets removals go, and the node stays up",
        Detail::Plain,
        "world 1024 breadth 100 a b
put a x weight 1
> version 1
del a x
> version 2
commit a y weight 2
> committed 3
trim a 3
> fault 30
trim a 2
> trimmed 2
upto a a
> 2
take a
> took 3
trim a 1
> trimmed 1
put a x weight 4
> version 4
give a b 1
> a70300000045030001016100000000000000040000000000000000000000000000000400020179000000000000000302000000000000000201780000000000000004020000000000000004
> taken 2
read b a x
> a x 4 weight 4
trim b 0
> trimmed 0
trim c 0
> nothing
crash a x weight 1 lost
> crashed
trim a 2
> fault 15
restart a
> restarted 4
",
    ),
    (
        "a peer shows the same rows before and after a trim",
        Detail::Plain,
        "world 1024 breadth 100 a b
put a k weight 1
> version 1
del a k
> version 2
put a l text left
> version 3
give a b 0
> a7030000003b03000101610000000000000000000000000000000000000000000000030002016b000000000000000200016c00000000000000030400046c656674
> taken 2
trim a 2
> trimmed 2
put a m weight 6
> version 4
give a b 3
> a7030000003203000101610000000000000002000000000000000300000000000000040001016d0000000000000004020000000000000006
> taken 1
read b a l
> a l 3 text left
read b a m
> a m 4 weight 6
restart a
> restarted 4
give a b 3
> a7030000003203000101610000000000000002000000000000000300000000000000040001016d0000000000000004020000000000000006
> stale
give a b 1
> a7030000004303000101610000000000000004000000000000000000000000000000040002016c00000000000000030400046c656674016d0000000000000004020000000000000006
> stale
put a k weight 7
> version 5
give a b 4
> a7030000003203000101610000000000000002000000000000000400000000000000050001016b0000000000000005020000000000000007
> taken 1
read b a k
> a k 5 weight 7
",
    ),
    (
        "which purges change what",
        Detail::Plain,
        "world 1024 breadth 100 a b
purge c 0
> nothing
purge a 1
> fault 30
read a a x
> none
purge a 0
> purged 0
purge a 0
> fault 15
restart a
> restarted 0
put a x weight 1
> version 1
del a x
> version 2
commit a y weight 3
> committed 3
connect a 1
> frame 1
purge a 2
> purged 2
ask 1
> nothing
take a
> fault 15
purge a 1
> fault 15
crash a x weight 1 kept
> fault 15
restart a
> restarted 3
purge a 1
> purged 1
restart a
> restarted 3
put a z weight 4
> version 4
put a x weight 5
> version 5
purge A 1
> fault 2
upto b a
> 0
",
    ),
    (
        "a removed key does not come back by old frames",
        Detail::Plain,
        "world 1024 breadth 100 a b c
put a x weight 1
> version 1
OFFERED
del a x
> version 2
offer a a 0
> frame 3
purge a 2
> purged 2
restart a
> restarted 2
give a b 0
> a7030000001f03000101610000000000000002000000000000000000000000000000020000
> taken 0
connect b 2
> frame 7
line 2 1
> lined
line 2 2
> lined
line 2 3
> lined
piece 2 999
> stale
> stale
upto b a
> 2
read b a x
> none
connect c 3
> frame 8
line 3 1
> lined
line 3 2
> lined
line 3 5
> lined
line 3 2
> lined
line 3 3
> lined
piece 3 68
> nothing
read c a x
> none
piece 3 999
> taken 1
> taken 0
> stale
> stale
read c a x
> none
upto c a
> 2
",
    ),
    (
        "a table of a floor is shown once all of it has come",
        Detail::Explained,
        "world 1024 breadth 100 a b
WRITTEN
give a b 0
> FRAME
> taken 1
>   frame 1: hello, cluster sim, node a
>   frame 2: delta, blocks 1
>     block of a, after 0, upto 1, entries 1
>       a w 1 weight 5
>   frame 3: hello, cluster sim, node b
put a y text T
> version 2
put a z text T
> version 3
del a w
> version 4
purge a 4
> purged 4
restart a
> restarted 4
connect a 1
> frame 4
>   frame 4: hello, cluster sim, node a
connect b 2
> frame 5
>   frame 5: hello, cluster sim, node b
ask 2
> frame 6
>   frame 6: digest, wants an answer, from the first name, to the last name, pairs 2
>     a upto 1
>     b upto 0
line 1 5
> lined
line 1 6
> lined
piece 1 999
> frame 7
> frame 8
>   frame 7: delta, blocks 1
>     block of a, floor 4, after 0, upto 2, entries 1
>       a y 2 text T
>   frame 8: digest, wants no answer, from the first name, to the last name, pairs 1
>     a upto 4
line 2 4
> lined
line 2 7
> lined
piece 2 999
> taken 1
upto b a
> 1
read b a w
> a w 1 weight 5
ask 2
> frame 9
>   frame 9: digest, wants an answer, from the first name, to the last name, pairs 2
>     a upto 1, stage of floor 4 up to 2
>     b upto 0
line 1 9
> lined
piece 1 999
> frame 10
> frame 11
>   frame 10: delta, blocks 1
>     block of a, floor 4, after 2, upto 4, entries 1
>       a z 3 text T
>   frame 11: digest, wants no answer, from the first name, to the last name, pairs 1
>     a upto 4
line 2 10
> lined
piece 2 999
> taken 1
upto b a
> 4
read b a w
> none
",
    ),
];
