//! The messages and frames that more than one row is about, each by a name.

/// Each name, and after it the octets as `spelled` reads them. The line above says what they are:
/// of a message the id, the flags, the code, the question and the records of each section; of a
/// frame its version, and of each observation the kind, the rank, the stamp, the life, the name, the type
/// and the data. The lines above a row say the same, after `=>` of its output.
pub(crate) const MESSAGES: &str = "\
# id 9 rd ad: wWw. IN AAAA
mixed-question 00090120000100000000000003'wWw'00001c0001
# id 7 rd: www.example. IN A
aliases 00070100000100000000000003'www'07'example'0000010001
# id 7 rd: www.example. IN AAAA
aliases-aaaa 00070100000100000000000003'www'07'example'00001c0001
# id 7 rd: example.com. IN A
question 00070100000100000000000007'example'03'com'0000010001
# id 7 qr rd ra NOERROR: example.com. IN A
empty-reply 00078180000100000000000007'example'03'com'0000010001
# id 7 qr rd ra NOERROR: example.com. CH A
chaos-reply 00078180000100000000000007'example'03'com'0000010003
# id 7 qr rd ra NOERROR: example.com. IN ANY
any-reply 00078180000100000000000007'example'03'com'0000ff0001
# id 4660 qr rd ra NXDOMAIN: example.com. IN A
no-soa 12348183000100000000000007'example'03'com'0000010001
# id 4 qr aa rd ra NOERROR: x.y.b.example. IN A; answer x.y.b.example. 300 IN A 192.0.2.1
below-reply 00048580000100010000000001'x'01'y'01'b'07'example'0000010001c00c000100010000012c0004c0\
    000201
# id 3 qr aa rd ra NXDOMAIN: b.example. IN A; authority example. 3600 IN SOA . . 1 3600 600 86400
#   300
no-name-reply 00038583000100000001000001'b'07'example'0000010001c00e0006000100000e1000160000000000\
    0100000e1000000258000151800000012c
# id 4660 qr rd ra NOERROR: example.com. IN A; answer example.com. 300 IN A 192.0.2.1, example.com.
#   2147483649 IN A 192.0.2.1
ended-reply 12348180000100020000000007'example'03'com'0000010001c00c000100010000012c0004c0000201c0\
    0c00010001800000010004c0000201
# id 1 qr rd ra NOERROR: example.com. IN A; answer example.com. 300 IN A 192.0.2.1; authority
#   example.com. 600 IN NS ns.example.com.
servers-reply-without-aa 00018180000100010001000007'example'03'com'0000010001c00c000100010000012c0\
    004c0000201c00c0002000100000258000502'ns'c00c
# id 1 qr aa rd ra NOERROR: example.com. IN A; answer example.com. 300 IN A 192.0.2.1; authority
#   example.com. 600 IN NS ns.example.com.
servers-reply 00018580000100010001000007'example'03'com'0000010001c00c000100010000012c0004c0000201\
    c00c0002000100000258000502'ns'c00c
# id 5 qr aa rd ra NOERROR: example.com. IN AAAA; authority com. 100000 IN SOA . . 1 3600 600 86400
#   20000
no-data-reply 00058580000100000001000007'example'03'com'00001c0001c01400060001000186a0001600000000\
    000100000e10000002580001518000004e20
# id 5 qr aa rd ra NOERROR: example.com. IN AAAA; authority com. 100000 IN SOA . . 1 3600 600 86400
#   2147483649
top-bit-minimum 00058580000100000001000007'example'03'com'00001c0001c01400060001000186a00016000000\
    00000100000e10000002580001518080000001
# id 5 qr aa rd ra NOERROR: example.com. IN AAAA; authority net. 100000 IN SOA . . 1 3600 600 86400
#   20000
other-soa 00058580000100000001000007'example'03'com'00001c000103'net'0000060001000186a000160000000\
    0000100000e10000002580001518000004e20
# id 1 qr rd ra NOERROR: example.com. IN A; answer example.com. 300 IN A 192.0.2.1; authority
#   example.com. 600 IN NS ns.example.com.
servers-whole 00018180000100010001000007'example'03'com'000001000107'example'03'com'00000100010000\
    012c0004c000020107'example'03'com'000002000100000258001002'ns'07'example'03'com'00
# id 2 qr rd ra NXDOMAIN: www.example. IN A; answer www.example. 60 IN CNAME a.example., a.example.
#   60 IN CNAME b.example.; authority example. 3600 IN SOA ns.example. . 1 3600 600 86400 300
aliases-reply 00028183000100020001000003'www'07'example'0000010001c00c000500010000003c000401'a'c01\
    0c029000500010000003c000401'b'c010c0100006000100000e10001a02'ns'c010000000000100000e1000000258\
    000151800000012c
# id 7 qr rd ra NXDOMAIN: www.example. IN A; answer www.example. 50 IN CNAME a.example., a.example.
#   50 IN CNAME b.example.; authority example. 290 IN SOA ns.example. . 1 3600 600 86400 300
aliases-relay 00078183000100020001000003'www'07'example'000001000103'www'07'example'00000500010000\
    0032000b01'a'07'example'0001'a'07'example'000005000100000032000b01'b'07'example'0007'example'0\
    00006000100000122002102'ns'07'example'00000000000100000e1000000258000151800000012c
# id 1 qr rd ra NOERROR: c0. IN A; answer c0. 300 IN CNAME c1., c1. 300 IN CNAME c2., c2. 300 IN
#   CNAME c3., c3. 300 IN CNAME c4., c4. 300 IN CNAME c5., c5. 300 IN CNAME c6., c6. 300 IN CNAME
#   c7., c7. 300 IN CNAME c8., c8. 300 IN CNAME c9., c9. 300 IN A 192.0.2.1
nine-aliases 000181800001000a0000000002'c0'000001000102'c0'00000500010000012c000402'c1'0002'c1'000\
    00500010000012c000402'c2'0002'c2'00000500010000012c000402'c3'0002'c3'00000500010000012c000402'\
    c4'0002'c4'00000500010000012c000402'c5'0002'c5'00000500010000012c000402'c6'0002'c6'00000500010\
    000012c000402'c7'0002'c7'00000500010000012c000402'c8'0002'c8'00000500010000012c000402'c9'0002'\
    c9'00000100010000012c0004c0000201
# frame 2: positive rank 3 at 100 for 300: example.com. A 192.0.2.1
frame-100 @00010303{00*7}640000012c07'example'03'com'00000100010004c0000201
";
