//! What `--help` prints after the options.

pub(crate) const EXAMPLE: &str =
    "`serve` runs a node. `set`, `del`, `get`, `watch`, `status` and `owners` ask a node that runs. `log` reads the log of a node that does not
run, and `purge` drops its tombstones. `restore` makes a log for a name whose log is lost, with the rows that another node shows, and `begin` one
without rows. `sim` plays many nodes in memory. `attrdir COMMAND --help` explains a command.

Example of a node, which is then asked from a second terminal:
  $ touch a.log
  $ attrdir serve --name a --cluster c --log a.log --sock a.sock --control a.ctl

  $ attrdir set --control a.ctl web/addr addr 10.0.0.1:80
  version 1
  $ attrdir get --control a.ctl
  a web/addr 1 addr 10.0.0.1:80

Example of a script:
  $ printf 'world 1024 breadth 100 a b\\nput a w weight 5\\ngive a b 0\\nread b a w\\n' | attrdir sim
  version 1
  a703000000320300010161000000000000000000000000000000000000000000000001000101770000000000000001020000000000000005
  taken 1
  a w 1 weight 5";

pub(crate) const SCRIPT: &str = "The first line of a script makes the nodes, each with an empty log:
  world BUDGET ORDER MAX NAME..   frames of at most BUDGET bytes, ORDER breadth or depth, versions up to MAX

Each other line is a command, and prints its answer:
  put N K VALUE, del N K          node N writes under the key K, or removes its value: `version V`
  commit N K VALUE, take N        the two halves of a put: the log takes the write; the node enters the oldest that waits
  commit N K removed              the first half of a del
  crash N K VALUE kept|lost       node N goes down after the commit of a write, or before it
  restart N                       node N starts again with what its log has
  purge N F                       the log of node N drops its tombstones up to the version F, and node N goes down: `purged F`
  trim N F                        node N drops the tombstones up to the version F, and its log too; it stays up: `trimmed F`
  give A B V                      node A sends node B what it wrote above the version V, as far as a frame has room
  offer N O V                     node N sends what it holds of owner O above the version V: `frame I`
  connect N C, close C            a connection with the number C begins at node N, and its Hello is sent; the connection ends
  ask C                           it sends its next digest
  line C I, piece C n             frame I is put in line to it; the next n bytes of its line arrive
  read N O K, upto N O            what node N has of owner O under the key K; up to which version it holds O
  show I                          the frame with the number I, in hexadecimal
VALUE is addr TEXT, weight NUMBER, flag true|false or text SPELLING. SPELLING is the rest of the line, in crash up to the space before
the last word. It is the text, but each byte 00 to 1f, 7f and \\ is a \\ and two digits, as in \\0a and \\5c.

If a node, a connection or a frame does not exist, the answer is `nothing`. A fault of a line is printed as `fault N`, and the script goes on. A
fault of the first line is printed too, and ends the run:
  1       no memory
  2       a name
  3       a key
  4       a value
  5       a setting, of the first line
  6       too many keys
  8       no version is left
  9       nothing to remove
  15      the node is down
  21      another node writes under the node's name
  22, 25  a Hello is missing; there is a second one
  23      a Hello is of another cluster
  24      a Hello is of the same name; two nodes of the first line have one name
  30      a version is above the last

A fault of the run ends it after its last answer. Standard error has `fault N`, its text, and what to do:
  1       no memory
  16      the script cannot be read
  17      the answers cannot be written
  29      the script takes more than 1,000,000 reads

The exit status is 0 after a whole script, and 3 after a fault that ended the run. After a line that is not a command it is 2, and `line N` has
its number.

Example:
  $ printf 'world 1024 breadth 100 a b\\nput a w weight 5\\ngive a b 0\\nread b a w\\n' | attrdir sim
  version 1
  a703000000320300010161000000000000000000000000000000000000000000000001000101770000000000000001020000000000000005
  taken 1
  a w 1 weight 5

With --explain each frame that a line sent or shows is described after what the line prints:
  $ printf 'world 1024 breadth 100 a b\\nput a w weight 5\\ngive a b 0\\nread b a w\\n' | attrdir sim --explain
  version 1
  a703000000320300010161000000000000000000000000000000000000000000000001000101770000000000000001020000000000000005
  taken 1
    frame 1: hello, cluster sim, node a
    frame 2: delta, blocks 1
      block of a, after 0, upto 1, entries 1
        a w 1 weight 5
    frame 3: hello, cluster sim, node b
  a w 1 weight 5

The same in single events, with the frame in two pieces:
  $ printf 'world 1024 breadth 100 a b\\nput a w weight 5\\nconnect a 1\\noffer a a 0\\nconnect b 2\\nline 2 1\\nline 2 2\\n\
piece 2 20\\npiece 2 49\\n' | attrdir sim
  version 1
  frame 1
  frame 2
  frame 3
  lined
  lined
  nothing
  taken 1";

pub(crate) const LOG: &str =
    "Each key is a line: owner, key, version, kind and value, or `removed -` in place of kind and value. Keys ascend. The last line is the last
version.

The file has to exist. An empty file becomes a new log. A fault ends the command. Standard error has `fault N`, its text, and what to do:
  1       no memory
  2       a name
  17      the lines cannot be written
  18      the file does not exist, cannot be read or written, or is open in another process; or it is empty, and FILE-wal has writes
  19      the file is not a log of this release, or it is damaged
  20      the log belongs to another owner or cluster

The exit status is 0, 2 after a wrong command line, and 3 after a fault.

Example:
  $ attrdir log --log a.log --name a --cluster c
  a x 2 removed -
  a y 3 flag true
  last 3";

pub(crate) const PURGE: &str =
    "It drops each tombstone of a version up to FLOOR. Then these removed keys no longer count among the 4,096 that an owner may have. Values stay, and
so does the last version: the next write has the version after it. The node must not run meanwhile. A peer that holds less than FLOOR takes the whole table once
the node runs again. It shows its old rows until the new table is whole.

It prints `purged FLOOR`, also if the log was purged so far before. With --all it drops all tombstones, and prints the last version.

The file has to exist. An empty file becomes a new log. A fault ends the command. Standard error has `fault N`, its text, and what to do:
  1       no memory
  2       a name
  17      the line cannot be written
  18      the file does not exist, cannot be read or written, or is open in another process; or it is empty, and FILE-wal has writes
  19      the file is not a log of this release, or it is damaged
  20      the log belongs to another owner or cluster
  30      FLOOR is above the last version

The exit status is 0, 2 after a wrong command line, and 3 after a fault.

Examples:
  $ attrdir purge --log a.log --name a --cluster c 2
  purged 2
  $ attrdir purge --log a.log --name a --cluster c --all
  purged 3";

pub(crate) const RESTORE: &str =
    "A node whose log is lost must not use its old versions again; see `attrdir begin --help`. This command makes such a log as begin --from does, and
writes all rows of the name into it that the node at --from-control shows. Once the node runs with this log, the others show these rows in place of
the old ones, all at once. What neither node heard of is lost. What was removed, and the removal not heard of, comes back.

First end the node and what starts it again, if it still runs. If it still answers, give its own --control, since it may have rows that nobody else
heard of, and end it afterwards. Else ask the node that has the greatest version of the name: `attrdir owners` prints it.

The log is there as a whole, or not at all: it is made in FILE.restore, which is then renamed. A FILE.restore that a killed command left is replaced.
If FILE has writes, or was made by `begin`, it is refused and stays as it is. To restore in its place, move it and its -wal away first.

It prints `restored ROWS last V`: how many rows there are, and the last version of the log. A fault ends the command. Standard error has `fault N`, its
text, and what to do:
  1       no memory
  2       a name
  5, 8    no version is left
  9       the node at --from heard nothing of the name, or the one at --from-control shows no row of it
  17      the line cannot be written; the log is there
  18      the file cannot be read or written, is open in another process, or is a link; or FILE-wal has writes, and FILE is empty or missing; or another
          process restores a log in the same folder
  19      the file is not a log of this release, or it is damaged
  20      the log belongs to another owner or cluster
  31      the log has writes, or was made by `begin`
Also those of `attrdir owners`, of the node at --from, and those of `attrdir get`, of the node at --from-control.

The exit status is 0, 2 after a wrong command line, and 3 after a fault.

Example, in which the file of node a is gone, and node b heard of its version 4 and shows two rows:
  $ attrdir restore --log a.log --name a --cluster c --from b.sock --from-control b.ctl
  restored 2 last 1048582";

pub(crate) const BEGIN: &str =
    "A node whose log is lost must not use its old versions again. Others hold what it wrote, and would ignore new writes under these versions. This
command makes a log that begins after a version V. The log holds nothing, and its next write has the version after V. Once the node runs with it, the
others drop what they hold of the name, and take what it writes then. To keep the rows that another node shows, use `attrdir restore`.

First end the node, if it still runs: a process keeps a file that was removed, and takes writes that are lost. V has to be at least 4,096 above the
last version of the lost log, since the lost log may have had so many keys. With --from, V is the last version that the node at PATH heard of, plus
1,048,576. The lost log may have had so many writes that no other node heard of. To end a name for good, run the node once with such a log, and write nothing.

It prints `begun V`. If the file has writes, or was made by `begin` before, it is refused and stays as it is. To begin in its place, move it and its
-wal away first.

A fault ends the command. Standard error has `fault N`, its text, and what to do:
  1       no memory
  2       a name
  5       V is outside 1 to 1099511627775
  9       the node at PATH heard nothing of the name
  17      the line cannot be written
  18      the file cannot be read or written, or is open in another process; or FILE-wal has writes, and FILE is empty or missing
  19      the file is not a log of this release, or it is damaged
  20      the log belongs to another owner or cluster
  31      the log has writes, or was made by `begin` before
With --from also those of `attrdir owners`, of the node at PATH.

The exit status is 0, 2 after a wrong command line, and 3 after a fault.

Examples, in which the file of node a is gone, and node b heard of its version 4:
  $ attrdir begin --log a.log --name a --cluster c --from b.sock
  begun 1048580
  $ attrdir begin --log old.log --name old --cluster c --after 5000
  begun 5000";

pub(crate) const SERVE: &str =
    "The log is a file that exists. An empty file becomes a new log. The node makes both sockets, and removes them when it ends by itself. At each path
there must be no file, or a socket that a killed node left. At --sock the node serves other nodes. At --control it answers `set`, `del`, `get`,
`watch` and `status`. Each PEER is the path of the --sock of another node. Nobody has to prove who they are: whoever can open a socket can use it.

The node asks its peers for what it lacks, and gives them what they lack: one peer a round, in turn. It asks some right away if it has news, which is
a write of its own, or a delta that brought something.

Each line on standard error is `attrdir: LEVEL WHAT: ..`. LEVEL is info, warning or error. The node reports:
  - that it listens, or ended after its last round
  - how its first round with each peer ended, and then each round that ended differently from the one before
  - that it removed a socket which a killed node left, or purged tombstones
  - that its log cannot be written, or that its file was removed or replaced
  - that another node writes under its name, or an older copy of its log
  - that the version which another node reports of itself falls: at most once a minute for each name
  - that peers have rows of an owner which it is to forget
  - that nine tenths of its keys or owners are used, or all, and that it refuses writes for that
  - that all its workers are busy, that it turns callers away, and that sessions which others dialed fail: at most once a minute each
  - that its file of metrics cannot be written

Without --rounds it runs until it is killed. Each write that was answered by a version is in the log. With --rounds it ends after the last round, and
prints `rounds R faults F events E`. R counts its rounds, F the rounds and connections that had a fault. E counts its own writes and each delta of a
peer, also one that brought nothing.

A fault of a connection ends that connection alone, and is counted. Another fault ends the node. Standard error has `fault N`, its text, and what to do:
  1       no memory
  2       the name
  5       a setting
  16      a socket cannot be made, or the path of a peer cannot be that of a socket
  17      the last line cannot be written, or the path of metrics is taken
  18      the log does not exist, cannot be read or written, or is open in another process; or it is empty, and FILE-wal has writes
  19      the file is not a log of this release, or it is damaged
  20      the log belongs to another owner or cluster

The exit status is 0 after the last round, 2 after a wrong command line, and 3 after a fault.

Examples:
  $ touch a.log b.log
  $ attrdir serve --name a --cluster c --log a.log --sock a.sock --control a.ctl b.sock &
  $ attrdir serve --name b --cluster c --log b.log --sock b.sock --control b.ctl a.sock &
  $ sleep 1; attrdir set --control a.ctl web/addr addr 10.0.0.1:80
  version 1
  $ sleep 1; attrdir get --control b.ctl
  a web/addr 1 addr 10.0.0.1:80

  $ touch one.log; attrdir serve --name one --cluster c --log one.log --sock one.sock --control one.ctl --rounds 1 --pause 0
  rounds 1 faults 0 events 0

  $ attrdir serve --name a --cluster c --log a.log --sock a.sock --control a.ctl --metrics a.prom &
  $ sleep 2; grep ^attrdir_log_open a.prom
  attrdir_log_open{node=\"a\"} 1";

pub(crate) const SET: &str =
    "KIND and VALUE are addr TEXT, weight NUMBER, flag true|false or text SPELLING. SPELLING is one argument, as `get` prints it. It is the text, but
each byte 00 to 1f, 7f and \\ is a \\ and two digits, as in \\0a and \\5c. With --raw it is the text itself. If KEY or VALUE begins
with -, put -- before KEY. The command prints `version V` once the log of the node has the write. Other nodes have it once they asked: `get`
shows it there.

With - alone, and no --raw, it reads lines from standard input: `KEY KIND VALUE` or `KEY removed`. One space separates two words; a text is the
rest of the line. It makes the write of each line as the line comes, and prints its version. Other writes may come between. It skips empty lines. The
first fault ends it, and names the number of its line. The writes of the lines before were made.

A fault ends the command. Standard error has `fault N`, its text, and what to do:
  1       no memory
  3       the key
  4       the value
  6       the node has 4,096 keys, removed ones counted
  8       the node has no version left
  9       the node has no value under a key that a line removes
  10-14   what answers is not a control socket
  15      the log of the node met a fault before
  16      no node could be reached, or it was silent for 60 s, or it ended the connection
  17      the request or the answer cannot be written
  18      the node cannot write its log
  21      another node writes under the node's name
  28      the node ended before it answered
  29      the answer takes more than 65,536 reads

The exit status is 0, 2 after a wrong command line, and 3 after a fault.

Examples:
  $ attrdir set --control a.ctl web/addr addr 10.0.0.1:80
  version 1
  $ printf 'web/weight weight 5\\nweb/up flag true\\n' | attrdir set --control a.ctl -
  version 2
  version 3";

pub(crate) const DEL: &str =
    "A removal is a write with a version of its own. The command prints `version V` once the log of the node has it. If KEY begins with -, put --
before it.

A fault ends the command: those of `attrdir set`, and 9 if the node has no value under the key.

The exit status is 0, 2 after a wrong command line, and 3 after a fault.

Example:
  $ attrdir del --control a.ctl web/up
  version 4";

pub(crate) const GET: &str =
    "Each row is a line: owner, key, version, kind and value, in ascending owner and then key. A removed key has no row. With --format json it is a
JSON object of key, kind, owner, value and version. There the value of an addr or a text is a string, of a weight a number, and of a flag true or
false. With --ages the object has an age too: how many milliseconds ago the node heard the owner. Rows of other owners are as far as the node has
heard of them. Rows come page by page: each page is one state of the node, and no page is older than the page before.

With --owner and --key it prints only the row of that key. With --value too it prints only its value, a text as it is spelled in the row. With
--raw too it prints a text as it is. If there is no such row it prints nothing, and the exit status is 1.

A fault ends the command. Standard error has `fault N`, its text, and what to do:
  1       no memory
  2       the owner
  3       the prefix or the key
  10-14   what answers is not a control socket
  15      the node cannot read
  16      no node could be reached, or it was silent for 60 s, or it ended the connection
  17      the request or the rows cannot be written
  28      the node ended before it answered
  29      a page takes more than 65,536 reads

The exit status is 0, also without rows. It is 1 if --key is given and there is no such row, 2 after a wrong command line, and 3 after a fault.

Examples:
  $ attrdir get --control a.ctl
  a web/addr 1 addr 10.0.0.1:80
  a web/weight 2 weight 5
  b web/addr 1 addr 10.0.0.2:80
  $ attrdir get --control a.ctl --owner a --prefix web/w
  a web/weight 2 weight 5
  $ attrdir get --control a.ctl --owner b --key web/addr --value
  10.0.0.2:80
  $ attrdir get --control a.ctl --owner b --format json
  {\"key\":\"web/addr\",\"kind\":\"addr\",\"owner\":\"b\",\"value\":\"10.0.0.2:80\",\"version\":1}";

pub(crate) const STATUS: &str =
    "A node is ready if it is caught up, its log takes writes, and it saw no other node write under its name. It is caught up once each of its peers
has had a round that ended since it started: with all exchanges, or with a fault if the peer does not answer. It stays so.

With --format text it prints a line `WORD VALUE` for each of these:
  ready         yes or no
  node, cluster, release
  uptime        how many milliseconds ago it started
  caught_up     yes or no
  log_fault     why its log takes no writes, none if it takes them
  conflict      the version that another node wrote under its name, or none
  version       its last version
  keys          keys of its own, removed ones counted
  removals      how many of these are removed
  owners        owners that it holds, itself counted
  peers         how many peers it dials
  rounds        rounds that it made, and round_faults: how many of these had a fault
  sessions      connections of peers that it took
  workers, workers_busy, all_workers_busy, session_faults, last_session_fault, other_versions, turned_away, full_writes
                its workers, and what it suffered since it started
Then comes a line `peer STATE PATH` for each peer. STATE is answers, not_dialed, unreachable, silent, unreadable, hung_up, broken_off, ended_early
or fault_N. With --format json it prints the same as one JSON object. In place of the number of peers that has the peers.

A fault ends the command. Standard error has `fault N`, its text, and what to do:
  1       no memory
  10-14   what answers is not a control socket
  16      no node could be reached, or it was silent for 60 s, or it ended the connection
  17      the request or the answer cannot be written
  28      the node ended before it answered, or it is of release 0.2.0, which does not know the question
  29      the answer takes more than 65,536 reads

The exit status is 0 if the node is ready, 1 if it is not, 2 after a wrong command line, and 3 after a fault.

Example:
  $ attrdir status --control a.ctl --wait 10000 | head -n 4
  ready yes
  node a
  cluster c
  release 0.2.0";

pub(crate) const OWNERS: &str =
    "It asks the node as another node would, under a name of its own, and writes nothing there. Each line has an owner and the version up to
which the node holds its writes, in ascending owner. So a script can see whether a node has heard of a write: `set` prints its version. With
--ages-from it asks at the control socket too, and each line ends with the age of the owner: how many milliseconds ago the node heard it.

A fault ends the command. Standard error has `fault N`, its text, and what to do:
  1       no memory
  2       the cluster or the name
  10-14   what answers is not the socket of a node for other nodes
  16      no node could be reached, or it was silent for 60 s, or it ended the connection
  17      the session or the lines cannot be written
  23      the node is of another cluster
  24      the node has this name
  28      the node ended before it had named all owners
  29      the session takes more than 65,536 reads

The exit status is 0, 2 after a wrong command line, and 3 after a fault.

Example:
  $ attrdir owners --sock a.sock --cluster c
  a 4
  b 1";

pub(crate) const WATCH: &str =
    "It asks for all rows as `attrdir get` does, waits until the node reports a change, and asks again. Each time it prints what changed since the
asking before. The first time it prints each row. Lines are in ascending owner and then key:
  set OWNER KEY VERSION KIND VALUE   the row is new, or has another version or value
  gone OWNER KEY                     the row is gone
A script that enters each `set` line and takes out each `gone` line has the rows of the last asking. If a row changed twice between two askings, only
its last state is printed. All lines of one asking are written at once; if nothing changed there are none. With --mark a line `asked` follows each
asking, also if nothing changed.

It has the node note the next change before it asks, so it misses none. With --count it does not wait for changes, and asks each --every. It also
does that if the node reports none: if 64 others wait for changes there, or if the node is of an older release.

A fault ends the command, at the first asking or later: those of `attrdir get`. It prints nothing of the asking that had the fault. If standard
output is closed, the command ends before it asks again.

With --retry it goes on if the node cannot be reached, ends or refuses. It prints a line on standard error when the node stops answering, and one when it
answers again. A node that was started again may know less for a while. So the command waits with `gone` until the node has shown a row of that owner
with the same version or a later one. Only rows that it asks for count. It prints no row with an earlier version than it printed before, also of a key
that is gone. --count counts the askings that the node answered.

With --hold, --floor, --settle, --listings or --render it is careful. It goes on as with --retry, and takes no rows before the node is caught up, as
`attrdir status` reports. It shows nothing before there is a row. A row that went stays for --hold, and changes are gathered for --settle. Rows that went
stay longer if fewer than --floor would be left without them. It reports that on standard error.

With --listings it prints all rows after each change, in one line: a JSON array with an object for each row, as `attrdir get --format json` prints it.

With --render it writes FILE from TEMPLATE after each change of its text. It prints a line `written ROWS` each time. A file beside it, with .new after its
name, replaces FILE as a whole. If that fails it says so, and tries again after longer and longer pauses. In TEMPLATE a line without placeholders stays
as it is. A line with placeholders is written once for each owner that has all of them:
  {{owner}}                   the name of the owner
  {{KEY}}                     the value under this key, {{KEY:host}} and {{KEY:port}} the parts of an address
  {{KEY|WORD}}                the value, or this word if the owner has none; also {{KEY:port|WORD}}
  {{KEY=WORD}}                nothing, and the line is only for owners with this value
An owner has no such line if the value has another byte than letters, digits and . : / _ - [ ] @ % + , =

The exit status is 0 after the last of --count, 2 after a wrong command line, and 3 after a fault.

Example, in which a second terminal writes and then removes a weight:
  $ attrdir watch --control a.ctl --prefix web/
  set a web/addr 1 addr 10.0.0.1:80
  set a web/weight 2 weight 5
  gone a web/weight

Example of a command that runs each time that the file was written:
  $ echo '{{owner}} {{web/addr}}' > map.template
  $ attrdir watch --control a.ctl --render map.template --to web.map --hold 10 --floor 50 | while read -r _; do systemctl reload haproxy; done";
