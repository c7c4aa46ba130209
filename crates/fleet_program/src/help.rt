//! What `--help` says after the words and options. The numbers in these texts are those of constants,
//! and the events and keys those that are read: no check compares them.

/// What `dnsfleet --help` says at its end.
pub const PROGRAM: &str = "\
Examples:
  dnsfleet script < examples/fleet.script
  dnsfleet serve --config examples/fleet/site0.toml --turns 1000 \\
    --key 000102030405060708090a0b0c0d0e0f101112131415161718191a1b1c1d1e1f

`dnsfleet script --help` lists the events, `dnsfleet serve --help` the keys of a configuration.";

/// What `dnsfleet script --help` says at its end.
pub const SCRIPT: &str = "\
Events, with what each prints; sites and frames have numbers from 0, moments are in seconds:
  sites N                            there are N sites, 1 to 9; the first event, or there is one
  learn SITE NOW HEX                 a reply is learnt: taken K
  ask SITE NOW HEX                   a question: reply HEX, miss or dropped
  show SITE                          floor F, a line for each item, items N
  datagram SITE NOW ADDR WORD HEX    a datagram from ADDR: packets, frames, taken K
  tick SITE NOW                      time passes: packets, idle or more
  flush SITE NOW HEX                 a name in full is withdrawn with all below it: frame, taken K
  sweep SITE                         frames of all that is held: swept K
  frame SITE NOW HEX                 octets as a frame: taken K
  deliver SITE NOW NUMBER            a frame that was sent: taken K
  merge INTO FROM                    all that the other site holds: merged K
  restart SITE                       as new: restarted
  same SITE SITE                     same or different
A refused event prints its packets and then `refused REASON`. A line at fault ends the script with status 1, and
`dnsfleet: line L: WHAT` on standard error. Empty lines, and lines that begin with `#`, are skipped. HEX is
`-` for no octets.

Example, a reply with the address of example.com., and a question for it ten seconds later:
  learn 0 100 000181800001000100000000076578616d706c6503636f6d0000010001c00c000100010000012c0004c0000201
  ask 0 110 000701000001000000000000076578616d706c6503636f6d0000010001";

/// What `dnsfleet serve --help` says at its end.
pub const SERVE: &str = "\
A turn receives at most one datagram, and waits 200 milliseconds for it: N turns last N / 5 seconds where none comes,
and less where some do. It prints `listening ADDR`, and after N turns
`turns T received R sent S lost L faults F refused X short M`.

Keys of the configuration, a TOML file:
  listen     where the site listens, an address of 127.0.0.1 with a port
  upstreams  1 to 4 addresses that are asked, in this order
  peers      at most 16 addresses that are sent what was learnt; none if absent
  sweep      0 to 3600, the seconds between two sweeps of all that is held; 0 is never, 30 if absent

Example, a site that asks the server at port 5301; with nothing to do it ends after an hour:
  listen = \"127.0.0.1:5400\"
  upstreams = [\"127.0.0.1:5301\"]

  dnsfleet serve --config site0.toml --turns 18000 \\
    --key 000102030405060708090a0b0c0d0e0f101112131415161718191a1b1c1d1e1f

Whoever has the key can guess the identifiers of queries: draw one for each site and each start. Every user of the machine
sees it in the list of processes, unless /proc is mounted with hidepid=2. A bad key ends with status 2; a bad
configuration, an address that can't be bound, or output that fails with status 1, with a line on standard error.";

/// What `dnsfleet check --help` says at its end.
pub const CHECK: &str = "\
For each good file it prints `FILE: listen ADDR upstreams ADDR.. peers ADDR.. sweep SECONDS`. For each other one it prints
every fault to standard error, as `FILE: WHAT: KEY, PLACE: FOUND`, in the order in which `serve` looks for them, and the
status is 1. A line with `warning` names what is valid, and probably a mistake:
  own address                              the site's own, as an upstream or a peer
  no loopback address                      an upstream on another machine, to which nothing can be sent
  the upstream has this site as a peer     it reads each question as a frame
  the peer does not have this site as one  it reads each frame as a question
  two sites at one address                 only one of them can listen there; not told if some file has a peer outside 127.0.0.0/8
The last three are seen where both files are given.";

/// What `dnsfleet withdraw --help` says at its end.
pub const WITHDRAW: &str = "\
First each site is asked for the CNAME of the name, then of the target that it answers, and so on, for up to eight targets.
It has two seconds for each. Then the site is sent a flush of this moment, and is asked for the name. Questions have RD
clear, and come from another port of the same host. A line for each site says what became of the name there:
  withdrawn                                 the site has no answer (code 5)
  withdrawn, an alias of LAST, which stays  the name was an alias that ended at LAST, which the flush does not reach
  still answers: code C, records N          the site has an answer
  no answer                                 nothing came within two seconds
  not taken: ..                             the address of --from is no peer of the site; if it is an upstream, this is not told
The status is 0 if each site says `withdrawn`, 3 if besides an alias stays at one of them, 1 if a site says something else,
and 2 for bad words.

A name has labels of visible ASCII with dots between them, and a dot at its end or none. In a label `\\.` is a dot, and
`\\DDD` the octet of this number (RFC 1035 5.1). A type is a word such as MX, or TYPE and a number (RFC 3597 5).

Example, from the place that the sites have among their peers:
  dnsfleet withdraw --from 127.0.0.1:5499 --to 127.0.0.1:5400 127.0.0.1:5401 example.com";
