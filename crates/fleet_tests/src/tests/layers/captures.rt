//! Answers of BIND and NSD with compression, and one message of each kind that is read or refused.
//!
//! Each reply is written again and compared with what dnspython makes of it. Each octet of these
//! messages is replaced by others from outside, by `tests/test_messages_at_fault.py`.

use crate::tests::layers::in_place::written_twice;
use crate::tests::layers::rows::{Words, octets_of, push_octets};
use crate::tests::layers::tables::{check_rows, rows_of};
use fleet_wire::{Message, Outline, ReadFault, Record, plain_rdata, read_reply};
use std::alloc::Global;
use std::process::Abort;

/// Messages, each with its reply of the same records with every name in full, opcode 0, RA set and
/// AA clear: header and question alone, cut off, where that has over 512 octets. Or its fault.
///
/// First what BIND 9.18.49 and NSD 4.6.1 answer from one zone, with the records as dnspython 2.3.0
/// writes them without compression; then one message of each kind, its names expanded by dnspython
/// 2.3.0.
const EXAMPLES: &str = "\
# BIND 9.18.49: example.com, type A
# id 4660 qr aa NOERROR: example.com. IN A; answer example.com. 3600 IN A 192.0.2.1; authority
#   example.com. 3600 IN NS ns1.example.com., example.com. 3600 IN NS ns2.example.com.; additional
#   ns1.example.com. 3600 IN A 192.0.2.53, ns2.example.com. 3600 IN A 192.0.2.54
# => id 4660 qr ra NOERROR: example.com. IN A; answer example.com. 3600 IN A 192.0.2.1; authority
# =>   example.com. 3600 IN NS ns1.example.com., example.com. 3600 IN NS ns2.example.com.
reply 12348400000100010002000207'example'03'com'0000010001c00c0001000100000e100004c0000201c00c00\
    02000100000e10000603'ns1'c00cc00c0002000100000e10000603'ns2'c00cc0390001000100000e100004c000\
    0235c04b0001000100000e100004c0000236 => 12348080000100010002000007'example'03'com'0000010001\
    07'example'03'com'000001000100000e100004c000020107'example'03'com'000002000100000e10001103\
    'ns1'07'example'03'com'0007'example'03'com'000002000100000e10001103'ns2'07'example'03'com'00
# NSD 4.6.1: example.com, type NS
# id 4660 qr aa NOERROR: example.com. IN NS; answer example.com. 3600 IN NS ns1.example.com.,
#   example.com. 3600 IN NS ns2.example.com.; additional ns1.example.com. 3600 IN A 192.0.2.53,
#   ns2.example.com. 3600 IN A 192.0.2.54
# => id 4660 qr ra NOERROR: example.com. IN NS; answer example.com. 3600 IN NS ns1.example.com.,
# =>   example.com. 3600 IN NS ns2.example.com.
reply 12348400000100020000000207'example'03'com'0000020001c00c0002000100000e10000603'ns1'c00cc0\
    0c0002000100000e10000603'ns2'c00cc0290001000100000e100004c0000235c03b0001000100000e100004c0\
    000236 => 12348080000100020000000007'example'03'com'000002000107'example'03'com'000002000100\
    000e10001103'ns1'07'example'03'com'0007'example'03'com'000002000100000e10001103'ns2'07\
    'example'03'com'00
# BIND 9.18.49: example.com, type MX
# id 4660 qr aa NOERROR: example.com. IN MX; answer example.com. 3600 IN MX 20 mail2.example.com.,
#   example.com. 3600 IN MX 10 mail.example.com.; authority example.com. 3600 IN NS
#   ns1.example.com., example.com. 3600 IN NS ns2.example.com.; additional mail.example.com. 3600 IN
#   A 192.0.2.25, mail2.example.com. 3600 IN A 192.0.2.26, ns1.example.com. 3600 IN A 192.0.2.53,
#   ns2.example.com. 3600 IN A 192.0.2.54
# => id 4660 qr ra NOERROR: example.com. IN MX; answer example.com. 3600 IN MX 20
# =>   mail2.example.com., example.com. 3600 IN MX 10 mail.example.com.; authority example.com. 3600
# =>   IN NS ns1.example.com., example.com. 3600 IN NS ns2.example.com.
reply 12348400000100020002000407'example'03'com'00000f0001c00c000f000100000e10000a001405'mail2'\
    c00cc00c000f000100000e100009000a04'mail'c00cc00c0002000100000e10000603'ns1'c00cc00c00020001\
    00000e10000603'ns2'c00cc0410001000100000e100004c0000219c02b0001000100000e100004c000021ac054\
    0001000100000e100004c0000235c0660001000100000e100004c0000236 => 12348080000100020002000007\
    'example'03'com'00000f000107'example'03'com'00000f000100000e100015001405'mail2'07'example'03\
    'com'0007'example'03'com'00000f000100000e100014000a04'mail'07'example'03'com'0007'example'03\
    'com'000002000100000e10001103'ns1'07'example'03'com'0007'example'03'com'000002000100000e1000\
    1103'ns2'07'example'03'com'00
# NSD 4.6.1: example.com, type SOA
# id 4660 qr aa NOERROR: example.com. IN SOA; answer example.com. 3600 IN SOA ns1.example.com.
#   hostmaster.example.com. 2024010101 7200 3600 1209600 300; authority example.com. 3600 IN NS
#   ns1.example.com., example.com. 3600 IN NS ns2.example.com.; additional ns1.example.com. 3600 IN
#   A 192.0.2.53, ns2.example.com. 3600 IN A 192.0.2.54
# => id 4660 qr ra NOERROR: example.com. IN SOA; answer example.com. 3600 IN SOA ns1.example.com.
# =>   hostmaster.example.com. 2024010101 7200 3600 1209600 300; authority example.com. 3600 IN NS
# =>   ns1.example.com., example.com. 3600 IN NS ns2.example.com.
reply 12348400000100010002000207'example'03'com'0000060001c00c0006000100000e10002703'ns1'c00c0a\
    'hostmaster'c00c78a3f17500001c2000000e10001275000000012cc00c0002000100000e100002c029c00c0002\
    000100000e10000603'ns2'c00cc0290001000100000e100004c0000235c06a0001000100000e100004c0000236 \
    => 12348080000100010002000007'example'03'com'000006000107'example'03'com'000006000100000e10\
    003d03'ns1'07'example'03'com'000a'hostmaster'07'example'03'com'0078a3f17500001c2000000e1000\
    1275000000012c07'example'03'com'000002000100000e10001103'ns1'07'example'03'com'0007'example'\
    03'com'000002000100000e10001103'ns2'07'example'03'com'00
# BIND 9.18.49: example.com, type TXT
# id 4660 qr aa NOERROR: example.com. IN TXT; answer example.com. 3600 IN TXT \"v=spf1 mx -all\";
#   authority example.com. 3600 IN NS ns2.example.com., example.com. 3600 IN NS ns1.example.com.;
#   additional ns1.example.com. 3600 IN A 192.0.2.53, ns2.example.com. 3600 IN A 192.0.2.54
# => id 4660 qr ra NOERROR: example.com. IN TXT; answer example.com. 3600 IN TXT \"v=spf1 mx -all\";
# =>   authority example.com. 3600 IN NS ns2.example.com., example.com. 3600 IN NS ns1.example.com.
reply 12348400000100010002000207'example'03'com'0000100001c00c0010000100000e10000f0e763d73706631\
    206d78202d616c6cc00c0002000100000e10000603'ns2'c00cc00c0002000100000e10000603'ns1'c00cc05600\
    01000100000e100004c0000235c0440001000100000e100004c0000236 => 12348080000100010002000007\
    'example'03'com'000010000107'example'03'com'000010000100000e10000f0e763d73706631206d78202d61\
    6c6c07'example'03'com'000002000100000e10001103'ns2'07'example'03'com'0007'example'03'com'00\
    0002000100000e10001103'ns1'07'example'03'com'00
# BIND 9.18.49: _sip._udp.example.com, type SRV
# id 4660 qr aa NOERROR: _sip._udp.example.com. IN SRV; answer _sip._udp.example.com. 3600 IN SRV 10
#   60 5060 sip.example.com.; authority example.com. 3600 IN NS ns2.example.com., example.com. 3600
#   IN NS ns1.example.com.; additional sip.example.com. 3600 IN A 192.0.2.60, ns1.example.com. 3600
#   IN A 192.0.2.53, ns2.example.com. 3600 IN A 192.0.2.54
# => id 4660 qr ra NOERROR: _sip._udp.example.com. IN SRV; answer _sip._udp.example.com. 3600 IN SRV
# =>   10 60 5060 sip.example.com.; authority example.com. 3600 IN NS ns2.example.com., example.com.
# =>   3600 IN NS ns1.example.com.
reply 12348400000100010002000304'_sip'04'_udp'07'example'03'com'0000210001c00c0021000100000e1000\
    17000a003c13c403'sip'07'example'03'com'00c03d0002000100000e10000603'ns2'c03dc03d000200010000\
    0e10000603'ns1'c03dc0390001000100000e100004c000023cc0680001000100000e100004c0000235c0560001\
    000100000e100004c0000236 => 12348080000100010002000004'_sip'04'_udp'07'example'03'com'000021\
    000104'_sip'04'_udp'07'example'03'com'000021000100000e100017000a003c13c403'sip'07'example'03\
    'com'0007'example'03'com'000002000100000e10001103'ns2'07'example'03'com'0007'example'03'com'\
    000002000100000e10001103'ns1'07'example'03'com'00
# NSD 4.6.1: 1.2.0.192.in-addr.arpa, type PTR
# id 4660 qr aa NOERROR: 1.2.0.192.in-addr.arpa. IN PTR; answer 1.2.0.192.in-addr.arpa. 3600 IN PTR
#   example.com.; authority 2.0.192.in-addr.arpa. 3600 IN NS ns1.example.com.
# => id 4660 qr ra NOERROR: 1.2.0.192.in-addr.arpa. IN PTR; answer 1.2.0.192.in-addr.arpa. 3600 IN
# =>   PTR example.com.; authority 2.0.192.in-addr.arpa. 3600 IN NS ns1.example.com.
reply 1234840000010001000100000131013201300331393207'in-addr'04'arpa'00000c0001c00c000c00010000\
    0e10000d07'example'03'com'00c00e0002000100000e10000603'ns1'c034 => 123480800001000100010000\
    0131013201300331393207'in-addr'04'arpa'00000c00010131013201300331393207'in-addr'04'arpa'0000\
    0c000100000e10000d07'example'03'com'00013201300331393207'in-addr'04'arpa'000002000100000e10\
    001103'ns1'07'example'03'com'00
# NSD 4.6.1: www.example.com, type A
# id 4660 qr aa NOERROR: www.example.com. IN A; answer www.example.com. 3600 IN CNAME example.com.,
#   example.com. 3600 IN A 192.0.2.1; authority example.com. 3600 IN NS ns1.example.com.,
#   example.com. 3600 IN NS ns2.example.com.; additional ns1.example.com. 3600 IN A 192.0.2.53,
#   ns2.example.com. 3600 IN A 192.0.2.54
# => id 4660 qr ra NOERROR: www.example.com. IN A; answer www.example.com. 3600 IN CNAME
# =>   example.com., example.com. 3600 IN A 192.0.2.1; authority example.com. 3600 IN NS
# =>   ns1.example.com., example.com. 3600 IN NS ns2.example.com.
reply 12348400000100020002000203'www'07'example'03'com'0000010001c00c0005000100000e100002c010c0\
    100001000100000e100004c0000201c0100002000100000e10000603'ns1'c010c0100002000100000e10000603\
    'ns2'c010c04b0001000100000e100004c0000235c05d0001000100000e100004c0000236 => 12348080000100\
    020002000003'www'07'example'03'com'000001000103'www'07'example'03'com'000005000100000e10000d\
    07'example'03'com'0007'example'03'com'000001000100000e100004c000020107'example'03'com'000002\
    000100000e10001103'ns1'07'example'03'com'0007'example'03'com'000002000100000e10001103'ns2'07\
    'example'03'com'00
# BIND 9.18.49: nothing.example.com, type A
# id 4660 qr aa NXDOMAIN: nothing.example.com. IN A; authority example.com. 300 IN SOA
#   ns1.example.com. hostmaster.example.com. 2024010101 7200 3600 1209600 300
# => id 4660 qr ra NXDOMAIN: nothing.example.com. IN A; authority example.com. 300 IN SOA
# =>   ns1.example.com. hostmaster.example.com. 2024010101 7200 3600 1209600 300
reply 12348403000100000001000007'nothing'07'example'03'com'0000010001c014000600010000012c002703\
    'ns1'c0140a'hostmaster'c01478a3f17500001c2000000e10001275000000012c => 12348083000100000001\
    000007'nothing'07'example'03'com'000001000107'example'03'com'00000600010000012c003d03'ns1'07\
    'example'03'com'000a'hostmaster'07'example'03'com'0078a3f17500001c2000000e10001275000000012c
# a reply with a pointer to the name of its question
# id 1 qr rd ra NOERROR: example.com. IN A; answer example.com. 300 IN A 192.0.2.1
# => id 1 qr rd ra NOERROR: example.com. IN A; answer example.com. 300 IN A 192.0.2.1
reply 00018180000100010000000007'example'03'com'0000010001c00c000100010000012c0004c0000201 => 00\
    018180000100010000000007'example'03'com'000001000107'example'03'com'00000100010000012c0004c0\
    000201
# its question
reply <question> => <empty-reply>
# a pointer to itself
# id 7 rd; name points to 12
reply 000701000001000000000000c00c00010001 => BadPointer
# a pointer to a later place
# id 7 rd; name points to 14
reply 000701000001000000000000c00e00010001 => BadPointer
# two pointers at each other
# id 7 rd; name points to 16
reply 00070100000100000000000001'a'c010c00c00010001 => BadPointer
# a pointer into its own run
# id 7 rd; name points to 12
reply 00070100000100000000000001'a'c00c00010001 => BadPointer
# a pointer to a zero octet of the header: the root
# id 0 rd: . IN A
# => id 0 qr rd ra NOERROR: . IN A
reply 000001000001000000000000c00000010001 => 0000818000010000000000000000010001
# a query to an upstream
# id 4660 rd: example.com. IN A
# => id 4660 qr rd ra NOERROR: example.com. IN A
reply 12340100000100000000000007'example'03'com'0000010001 => 12348180000100000000000007\
    'example'03'com'0000010001
# a TTL with the top bit set
# => id 4660 qr rd ra NOERROR: example.com. IN A; answer example.com. 300 IN A 192.0.2.1,
# =>   example.com. 2147483649 IN A 192.0.2.1
reply <ended-reply> => 12348180000100020000000007'example'03'com'000001000107'example'03'com'00000\
    100010000012c0004c000020107'example'03'com'0000010001800000010004c0000201
# a question with capitals, and an OPT record that is not read
# id 9 rd ad: ExAmPlE.CoM. IN A; additional . 0 CLASS4096 OPT \\# 0
# => id 9 qr rd ra NOERROR: ExAmPlE.CoM. IN A
reply 00090120000100000000000107'ExAmPlE'03'CoM'00000100010000291000000000000000 => 000981800001\
    00000000000007'ExAmPlE'03'CoM'0000010001
# two aliases, and a name that does not exist
# => id 2 qr rd ra NXDOMAIN: www.example. IN A; answer www.example. 60 IN CNAME a.example.,
# =>   a.example. 60 IN CNAME b.example.; authority example. 3600 IN SOA ns.example. . 1 3600 600
# =>   86400 300
reply <aliases-reply> => 00028183000100020001000003'www'07'example'000001000103'www'07'example'000\
    00500010000003c000b01'a'07'example'0001'a'07'example'00000500010000003c000b01'b'07'example'000\
    7'example'000006000100000e10002102'ns'07'example'00000000000100000e1000000258000151800000012c
# a name error with the SOA of its parent
# => id 3 qr rd ra NXDOMAIN: b.example. IN A; authority example. 3600 IN SOA . . 1 3600 600 86400
# =>   300
reply <no-name-reply> => 00038183000100000001000001'b'07'example'000001000107'example'000006000100\
    000e10001600000000000100000e1000000258000151800000012c
# an answer at x.y.b.example
# => id 4 qr rd ra NOERROR: x.y.b.example. IN A; answer x.y.b.example. 300 IN A 192.0.2.1
reply <below-reply> => 00048180000100010000000001'x'01'y'01'b'07'example'000001000101'x'01'y'01'b'\
    07'example'00000100010000012c0004c0000201
# a name error without SOA
reply <no-soa> => <no-soa>
# nine aliases and an address
reply <nine-aliases> => <nine-aliases>
# thirty addresses
# id 1 qr rd ra NOERROR: example.com. IN A; answer example.com. 300 IN A 192.0.2.1 to 192.0.2.30
# => id 1 qr tc rd ra NOERROR: example.com. IN A
reply 000181800001001e0000000007'example'03'com'0000010001c00c000100010000012c0004c0000201c00c00\
    0100010000012c0004c0000202c00c000100010000012c0004c0000203c00c000100010000012c0004c0000204c0\
    0c000100010000012c0004c0000205c00c000100010000012c0004c0000206c00c000100010000012c0004c00002\
    07c00c000100010000012c0004c0000208c00c000100010000012c0004c0000209c00c000100010000012c0004c0\
    00020ac00c000100010000012c0004c000020bc00c000100010000012c0004c000020cc00c000100010000012c00\
    04c000020dc00c000100010000012c0004c000020ec00c000100010000012c0004c000020fc00c00010001000001\
    2c0004c0000210c00c000100010000012c0004c0000211c00c000100010000012c0004c0000212c00c0001000100\
    00012c0004c0000213c00c000100010000012c0004c0000214c00c000100010000012c0004c0000215c00c000100\
    010000012c0004c0000216c00c000100010000012c0004c0000217c00c000100010000012c0004c0000218c00c00\
    0100010000012c0004c0000219c00c000100010000012c0004c000021ac00c000100010000012c0004c000021bc0\
    0c000100010000012c0004c000021cc00c000100010000012c0004c000021dc00c000100010000012c0004c00002\
    1e => 00018380000100000000000007'example'03'com'0000010001
# a TXT record of 461 octets
# id 1 qr rd ra NOERROR: example.com. IN TXT; answer example.com. 300 IN TXT \\# 461 61..
# => id 1 qr tc rd ra NOERROR: example.com. IN TXT
reply 00018180000100010000000007'example'03'com'0000100001c00c001000010000012c01cd{61*461} => 00\
    018380000100000000000007'example'03'com'0000100001
# no octets
reply - => TooShort
# a name of 255 octets
# id 7 rd: a*63.a*63.a*63.a*61. IN A
# => id 7 qr rd ra NOERROR: a*63.a*63.a*63.a*61. IN A
reply 0007010000010000000000003f{61*63}3f{61*63}3f{61*63}3d{61*61}0000010001 => 0007818000010000\
    000000003f{61*63}3f{61*63}3f{61*63}3d{61*61}0000010001
# a name of 256 octets
# id 7 rd; name of 256 octets
reply 0007010000010000000000003f{61*63}3f{61*63}3f{61*63}3e{61*62}0000010001 => LongName
# an answer and the servers of the zone
reply <servers-reply> => <servers-whole>
# a question of the type 255
# id 7 rd: example.com. IN ANY
reply 00070100000100000000000007'example'03'com'0000ff0001 => <any-reply>
# a question of the class 3
# id 7 rd: example.com. CH A
reply 00070100000100000000000007'example'03'com'0000010003 => <chaos-reply>
# a question of another opcode
# id 7 rd opcode 2: example.com. IN A
reply 00071100000100000000000007'example'03'com'0000010001 => <empty-reply>
# no question
# id 7 rd, QDCOUNT 0: example.com. IN A
reply 00070100000000000000000007'example'03'com'0000010001 => QuestionCount
# two questions
# id 7 rd, QDCOUNT 2: example.com. IN A
reply 00070100000200000000000007'example'03'com'0000010001 => QuestionCount
# a question that wants no recursion
# => id 7 qr ra NOERROR: example.com. IN A
reply 00070000000100000000000007'example'03'com'0000010001 => 00078080000100000000000007\
    'example'03'com'0000010001
# no such data, with the SOA of com
# => id 5 qr rd ra NOERROR: example.com. IN AAAA; authority com. 100000 IN SOA . . 1 3600 600 86400
# =>   20000
reply <no-data-reply> => 00058180000100000001000007'example'03'com'00001c000103'com'00000600010001\
    86a0001600000000000100000e10000002580001518000004e20
# a TTL of one second
# id 1 qr rd ra NOERROR: example.com. IN A; answer example.com. 1 IN A 192.0.2.1
# => id 1 qr rd ra NOERROR: example.com. IN A; answer example.com. 1 IN A 192.0.2.1
reply 00018180000100010000000007'example'03'com'0000010001c00c00010001000000010004c0000201 => 00\
    018180000100010000000007'example'03'com'000001000107'example'03'com'0000010001000000010004c0\
    000201
# a question for an alias
# => id 7 qr rd ra NOERROR: www.example. IN A
reply <aliases> => 00078180000100000000000003'www'07'example'0000010001
# its type is 28
# => id 7 qr rd ra NOERROR: www.example. IN AAAA
reply <aliases-aaaa> => 00078180000100000000000003'www'07'example'00001c0001
# its type is 5
# id 7 rd: www.example. IN CNAME
# => id 7 qr rd ra NOERROR: www.example. IN CNAME
reply 00070100000100000000000003'www'07'example'0000050001 => 00078180000100000000000003'www'07\
    'example'0000050001
# a question below a name that does not exist
# id 7 rd: x.y.b.example. IN A
# => id 7 qr rd ra NOERROR: x.y.b.example. IN A
reply 00070100000100000000000001'x'01'y'01'b'07'example'0000010001 => 00078180000100000000000001\
    'x'01'y'01'b'07'example'0000010001
# another one beside it
# id 7 rd: c.b.example. IN A
# => id 7 qr rd ra NOERROR: c.b.example. IN A
reply 00070100000100000000000001'c'01'b'07'example'0000010001 => 00078180000100000000000001'c'01\
    'b'07'example'0000010001
# a TXT record of 460 octets
# id 1 qr rd ra NOERROR: example.com. IN TXT; answer example.com. 300 IN TXT \\# 460 61..
# => id 1 qr rd ra NOERROR: example.com. IN TXT; answer example.com. 300 IN TXT \\# 460 61..
reply 00018180000100010000000007'example'03'com'0000100001c00c001000010000012c01cc{61*460} => 00\
    018180000100010000000007'example'03'com'000010000107'example'03'com'00001000010000012c01cc\
    {61*460}
# a question of the type 16
# id 7 rd: example.com. IN TXT
# => id 7 qr rd ra NOERROR: example.com. IN TXT
reply 00070100000100000000000007'example'03'com'0000100001 => 00078180000100000000000007\
    'example'03'com'0000100001
# a question of the type 2
# id 7 rd: example.com. IN NS
# => id 7 qr rd ra NOERROR: example.com. IN NS
reply 00070100000100000000000007'example'03'com'0000020001 => 00078180000100000000000007\
    'example'03'com'0000020001
# an answer and the servers of the zone, AA clear
reply <servers-reply-without-aa> => <servers-whole>
# a question of the type 28
# id 7 rd: example.com. IN AAAA
# => id 7 qr rd ra NOERROR: example.com. IN AAAA
reply 00070100000100000000000007'example'03'com'00001c0001 => 00078180000100000000000007\
    'example'03'com'00001c0001
# an SOA with the top bit of MINIMUM set
# => id 5 qr rd ra NOERROR: example.com. IN AAAA; authority com. 100000 IN SOA . . 1 3600 600 86400
# =>   2147483649
reply <top-bit-minimum> => 00058180000100000001000007'example'03'com'00001c000103'com'000006000100\
    0186a0001600000000000100000e10000002580001518080000001
# an SOA of another name
# => id 5 qr rd ra NOERROR: example.com. IN AAAA; authority net. 100000 IN SOA . . 1 3600 600 86400
# =>   20000
reply <other-soa> => 00058180000100000001000007'example'03'com'00001c000103'net'0000060001000186a0\
    001600000000000100000e10000002580001518000004e20
# a reply of the type 255
reply <any-reply> => <any-reply>
# a reply of the class 3
reply <chaos-reply> => <chaos-reply>
# a question for a label of two octets
# id 7 rd: c0. IN A
# => id 7 qr rd ra NOERROR: c0. IN A
reply 00070100000100000000000002'c0'0000010001 => 00078180000100000000000002'c0'0000010001
# a question under another identifier
# id 8 rd: example.com. IN A
# => id 8 qr rd ra NOERROR: example.com. IN A
reply 00080100000100000000000007'example'03'com'0000010001 => 00088180000100000000000007\
    'example'03'com'0000010001
# a reply with its address
# id 4660 qr rd ra NOERROR: example.com. IN A; answer example.com. 300 IN A 192.0.2.1
# => id 4660 qr rd ra NOERROR: example.com. IN A; answer example.com. 300 IN A 192.0.2.1
reply 12348180000100010000000007'example'03'com'0000010001c00c000100010000012c0004c0000201 => 12\
    348180000100010000000007'example'03'com'000001000107'example'03'com'00000100010000012c0004c0\
    000201
# its relay, with every name in full
reply <aliases-relay> => <aliases-relay>
";

/// Adds why there is no message.
fn push_fault(rt: &impl Abort, output: &mut String, fault: ReadFault) {
    write!(output, "{fault:?}").expect(rt, "memory");
}

/// Adds a record to the answer section of an outline.
fn add_answer<'a>(rt: &impl Abort, outline: &mut Outline<'a>, record: &'a Record) {
    let rdata = record.rdata.as_slice();
    outline
        .answer(&record.name, record.rtype, record.ttl, rdata)
        .expect(rt, "a record");
}

/// Adds a record to the authority section of an outline.
fn add_authority<'a>(rt: &impl Abort, outline: &mut Outline<'a>, record: &'a Record) {
    let rdata = record.rdata.as_slice();
    outline
        .authority(&record.name, record.rtype, record.ttl, rdata)
        .expect(rt, "a record");
}

/// Adds the records of a reply as an outline's.
fn add_records<'a>(rt: &impl Abort, outline: &mut Outline<'a>, reply: &'a Message) {
    for record in reply.answer() {
        add_answer(rt, outline, record);
    }
    for record in reply.authority() {
        add_authority(rt, outline, record);
    }
}

/// Adds the records of a reply, written again.
fn push_rewritten(rt: &impl Abort, alloc: Global, reply: &Message, output: &mut String) {
    let header = reply.header();
    let question = Some(reply.question());
    let rcode = header.rcode % 16;
    let mut outline = Outline::new(alloc, header.id, 0, header.rd, rcode, false, question);
    add_records(rt, &mut outline, reply);
    let octets = written_twice(rt, alloc, &outline);
    push_octets(rt, output, octets.as_slice());
}

/// The records of a reply, written again, or why it is none.
pub(crate) fn show_rewritten(
    rt: &impl Abort,
    alloc: Global,
    mut words: Words<'_>,
    output: &mut String,
) {
    let message = words.octets(rt, alloc);
    match read_reply(alloc, message.as_slice()) {
        Ok(reply) => push_rewritten(rt, alloc, &reply, output),
        Err(fault) => push_fault(rt, output, fault),
    }
}

/// Allocates: `fleet_wire`: `read_reply`, `Outline::answer`, `Outline::authority`, `write_reply`,
/// `write_reply_into`.
#[test]
fn reads_each_message(rt: HostRuntime) {
    assert_eq!(rt; rows_of(EXAMPLES), 56);
    check_rows(&rt, rt.alloc(), EXAMPLES);
}

/// A reply with one record, by its type, the length of its RDATA and its RDATA, which begins at place 39;
/// its question is for a.example, whose name begins at place 12.
fn reply_with(rt: &impl Abort, alloc: Global, rtype: &str, length: &str, rdata: &str) -> Vec<u8> {
    let text = format!(in alloc;
        "00018180000100010000000001'a'07'example'0000010001c00c{rtype}00010000012c{length}{rdata}"
    ).expect(rt, "memory");
    octets_of(rt, alloc, text.as_str())
}

/// Adds the RDATA of the first record of a message, or why it is none.
fn push_rdata(rt: &impl Abort, alloc: Global, message: &[u8], output: &mut String) {
    match read_reply(alloc, message) {
        Ok(reply) => {
            let record = reply.answer().first().expect(rt, "a record");
            push_octets(rt, output, record.rdata.as_slice())
        }
        Err(fault) => push_fault(rt, output, fault),
    }
}

/// What is read of RDATA: its type, its length and itself.
pub(crate) fn show_rdata(
    rt: &impl Abort,
    alloc: Global,
    mut words: Words<'_>,
    output: &mut String,
) {
    let rtype = words.word();
    let length = words.word();
    let message = reply_with(rt, alloc, rtype, length, words.word());
    push_rdata(rt, alloc, message.as_slice(), output);
}

/// The types with names in their RDATA (RFC 1035 3.3, RFC 2782), in hexadecimal digits as the length of
/// the RDATA is, each with RDATA whose names are pointers to a.example, beside octets that begin no name;
/// and then with these in full.
const SHAPES: &str = "\
rdata 0002 0002 c00c => 01'a'07'example'00
rdata 0003 0002 c00c => 01'a'07'example'00
rdata 0004 0002 c00c => 01'a'07'example'00
rdata 0005 0002 c00c => 01'a'07'example'00
rdata 0006 0018 c00cc00c{ff*20} => 01'a'07'example'0001'a'07'example'00{ff*20}
rdata 0007 0002 c00c => 01'a'07'example'00
rdata 0008 0002 c00c => 01'a'07'example'00
rdata 0009 0002 c00c => 01'a'07'example'00
rdata 000c 0002 c00c => 01'a'07'example'00
rdata 000e 0004 c00cc00c => 01'a'07'example'0001'a'07'example'00
rdata 000f 0004 {ff*2}c00c => {ff*2}01'a'07'example'00
rdata 0021 0008 {ff*6}c00c => {ff*6}01'a'07'example'00
";

/// Whether a type's RDATA has names: a pointer alone is then expanded or refused.
fn has_names(rt: &impl Abort, alloc: Global, rtype: u16) -> bool {
    let pointer = b"\xc0\x0c";
    let digits = hex::encode(alloc, &rtype.to_be_bytes()).expect(rt, "memory");
    let message = reply_with(rt, alloc, digits.as_str(), "0002", "c00c");
    match read_reply(alloc, &message) {
        Ok(reply) => {
            let record = reply.answer().first().expect(rt, "a record");
            record.rdata.as_slice() != pointer.as_slice()
        }
        Err(_) => true,
    }
}

/// How many of the 65536 types have names in their RDATA. A pointer alone is plain RDATA of each
/// other one.
fn count_shaped(rt: &impl Abort, alloc: Global) -> usize {
    let mut shaped = 0usize;
    for rtype in 0..=u16::MAX {
        let has_names = has_names(rt, alloc, rtype);
        assert!(rt;
            plain_rdata(rtype, b"\xc0\x0c") != has_names,
            "type {rtype}"
        );
        shaped = shaped.saturating_add(usize::from(has_names));
    }
    shaped
}

#[test]
fn shapes_of_types(rt: HostRuntime) {
    check_rows(&rt, rt.alloc(), SHAPES);
    assert_eq!(rt; count_shaped(&rt, rt.alloc()), rows_of(SHAPES));
}
