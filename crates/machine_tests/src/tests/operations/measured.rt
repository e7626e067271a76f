//! Values and flags that a processor gave. A line has the operation, the width, the two operands, the flags word before,
//! the value and the flags word after, numbers in hexadecimal; docs/evidence/vectors.md has the program that printed them.
use cpu_alu::{AluOp, Flags, Width, alu, pack, unpack};

const MEASURED: &str = "\
add 8 7f 1 2d3 80 a92
add 8 80 80 2d3 0 a47
add 8 0 ff a13 ff 286
add 8 63eb6baa12c74 70fa ac3 6e 203
add 8 dad02e2fd1a85e 253 256 b1 a96
add 16 7fff 1 a97 8000 a96
add 16 8000 8000 292 0 a47
add 16 0 ffff a57 ffff 286
add 16 883b 6b86d59c74505 a82 cd40 292
add 16 287d1b12f810 2f1c3d7b65 a52 7375 203
add 32 7fffffff 1 a13 80000000 a96
add 32 80000000 80000000 ac7 0 a47
add 32 0 ffffffff 206 ffffffff 286
add 32 f555518815 a7c4ac45009d395 a52 a55b5baa a86
add 32 301792d128 1d9fba ad7 17b070e2 216
add 64 7fffffffffffffff 1 2d7 8000000000000000 a96
add 64 8000000000000000 8000000000000000 a57 0 a47
add 64 0 ffffffffffffffff 293 ffffffffffffffff 286
add 64 2a 22 246 4c 202
add 64 1f92e9187eaf0dd 7442 a06 1f92e9187eb651f 202
or 8 7f 1 ac3 7f 202
or 8 80 80 2d3 80 282
or 8 0 ff 212 ff 286
or 8 c5d37803 7068e390fe8905 a86 7 202
or 8 36b532d942e0cfc 3e054 282 fc 286
or 16 7fff 1 ad3 7fff 206
or 16 8000 8000 a57 8000 286
or 16 0 ffff 217 ffff 286
or 16 70a8a9fa 60af7233f6 ad6 bbfe 282
or 16 6198bf202376 6afabe9164 ac3 b376 282
or 32 7fffffff 1 206 7fffffff 206
or 32 80000000 80000000 a07 80000000 286
or 32 0 ffffffff a43 ffffffff 286
or 32 e1f51561b157085 2c9a8174c9acd 2c7 1f5dfacd 202
or 32 41ccf1e4a8 2 257 ccf1e4aa 286
or 64 7fffffffffffffff 1 203 7fffffffffffffff 206
or 64 8000000000000000 8000000000000000 a52 8000000000000000 286
or 64 0 ffffffffffffffff ac2 ffffffffffffffff 286
or 64 26613 3 207 26613 202
or 64 76001f5b2 19ad2dac a82 779adfdbe 206
adc 8 7f 1 ad2 80 a92
adc 8 80 80 a17 1 a03
adc 8 0 ff 2d2 ff 286
adc 8 f9278093 748 ac7 dc 282
adc 8 8ec5bfb 3fb a16 f6 297
adc 16 7fff 1 ac6 8000 a96
adc 16 8000 8000 2c7 1 a03
adc 16 0 ffff 287 0 257
adc 16 141a277 ff a12 a376 292
adc 16 17e6031731 893bb3279bfba8 2d7 12da 203
adc 32 7fffffff 1 a92 80000000 a96
adc 32 80000000 80000000 2d3 1 a03
adc 32 0 ffffffff 282 ffffffff 286
adc 32 35409875 1ee8459e 2c2 5428de13 212
adc 32 1546462d 22 a12 1546464f 202
adc 64 7fffffffffffffff 1 282 8000000000000000 a96
adc 64 8000000000000000 8000000000000000 a93 1 a03
adc 64 0 ffffffffffffffff a53 0 257
adc 64 15fcd001a d0a6ae27a65bb6 287 d0a6af87735bd1 216
adc 64 8a0d63e2 5f0c9055 a42 e919f437 202
sbb 8 7f 1 ad2 7e 206
sbb 8 80 80 2c7 ff 297
sbb 8 0 ff ad7 0 257
sbb 8 2295dfc37684e c5e7995ac80bd a97 90 a87
sbb 8 b2d8763f1457c4aa 17b71a6e5b4d16bb 292 ef 293
sbb 16 7fff 1 257 7ffd 202
sbb 16 8000 8000 a06 0 246
sbb 16 0 ffff 2c6 1 213
sbb 16 f0bf 25e92ba03 293 36bb 206
sbb 16 690866b47216f6d 498 a42 6ad5 202
sbb 32 7fffffff 1 a56 7ffffffe 202
sbb 32 80000000 80000000 217 ffffffff 297
sbb 32 0 ffffffff 257 0 257
sbb 32 1330b1c0 2edef86027d 287 23aaaf42 217
sbb 32 bc169fa4 bb1 a57 bc1693f2 282
sbb 64 7fffffffffffffff 1 a86 7ffffffffffffffe 202
sbb 64 8000000000000000 8000000000000000 2c6 0 246
sbb 64 0 ffffffffffffffff 247 0 257
sbb 64 1 b4 a13 ffffffffffffff4c 293
sbb 64 a060d67a76ff0b 178a831330d90 a83 9ee82e4943f17a 202
and 8 7f 1 ac6 1 202
and 8 80 80 a03 80 282
and 8 0 ff a46 0 246
and 8 42796f209b 6c4 a53 80 282
and 8 509c120 7553348b2bd9 256 0 246
and 16 7fff 1 a83 1 202
and 16 8000 8000 a56 8000 286
and 16 0 ffff a16 0 246
and 16 aeeb2a5 35f0a a82 1200 206
and 16 5fa6ed29573ae 9c 293 8c 202
and 32 7fffffff 1 2d7 1 202
and 32 80000000 80000000 253 80000000 286
and 32 0 ffffffff 2c6 0 246
and 32 608fbd 138e62a2271b24 a42 200b24 206
and 32 e14 5fa38421f999a a06 810 202
and 64 7fffffffffffffff 1 212 1 202
and 64 8000000000000000 8000000000000000 2d6 8000000000000000 286
and 64 0 ffffffffffffffff a16 0 246
and 64 6f0defe9 c47c36903 a16 47016901 202
and 64 1e9e 2ba4f42351 a57 210 202
sub 8 7f 1 a86 7e 206
sub 8 80 80 2d2 0 246
sub 8 0 ff 247 1 213
sub 8 26ce8c35ccab2 5 a17 ad 292
sub 8 5a 12412 a93 48 206
sub 16 7fff 1 ac3 7ffe 202
sub 16 8000 8000 252 0 246
sub 16 0 ffff ad6 1 213
sub 16 1 2650b3ef2edaf5 212 250c 217
sub 16 29ab4917dcd82 3815ec15704ec ad3 c896 296
sub 32 7fffffff 1 a12 7ffffffe 202
sub 32 80000000 80000000 a92 0 246
sub 32 0 ffffffff 283 1 213
sub 32 d1036a0 545b6d1163e9085a ac6 a9272e46 293
sub 32 8 70d806c1170f ac6 f93ee8f9 297
sub 64 7fffffffffffffff 1 2c2 7ffffffffffffffe 202
sub 64 8000000000000000 8000000000000000 a43 0 246
sub 64 0 ffffffffffffffff 252 1 213
sub 64 3b59660070bf a508a52424 ad7 3ab45d5b4c9b 202
sub 64 a70f 368de36 297 fffffffffc97c8d9 283
xor 8 7f 1 206 7e 206
xor 8 80 80 a97 0 246
xor 8 0 ff a52 ff 286
xor 8 0 ebf5eb869204d6b8 217 b8 286
xor 8 2d78a 6c9 a87 43 202
xor 16 7fff 1 ad6 7ffe 202
xor 16 8000 8000 a56 0 246
xor 16 0 ffff 297 ffff 286
xor 16 19c8165f67 e a07 5f69 206
xor 16 715f5db00371ea 2dc38773dd634c a02 12a6 206
xor 32 7fffffff 1 256 7ffffffe 202
xor 32 80000000 80000000 2d2 0 246
xor 32 0 ffffffff a17 ffffffff 286
xor 32 13e5e06ed8956e 6ea1f053f6 a82 cf28c698 282
xor 32 3999992164169 4f9b2f6b7bc871e3 203 e9de308a 282
xor 64 7fffffffffffffff 1 293 7ffffffffffffffe 202
xor 64 8000000000000000 8000000000000000 246 0 246
xor 64 0 ffffffffffffffff a17 ffffffffffffffff 286
xor 64 79e6 2e56105a74338f 2c6 2e56105a744a69 206
xor 64 4ba82 37302344287b3 2c7 3730234463d31 202
inc 8 7f 1 a86 80 a92
inc 8 80 80 a17 81 287
inc 8 0 ff 212 1 202
inc 8 d6c03b7 1f29c4a0 243 b8 287
inc 8 15374106f7d 931f5e962b432 206 7e 206
inc 16 7fff 1 212 8000 a96
inc 16 8000 8000 ad7 8001 283
inc 16 0 ffff a03 1 203
inc 16 d51a497f18305a 308a29d85 a02 305b 202
inc 16 161d5e0654dde9 185bd7a540bca5 a86 ddea 282
inc 32 7fffffff 1 207 80000000 a97
inc 32 80000000 80000000 246 80000001 282
inc 32 0 ffffffff 212 1 202
inc 32 2c034821f1 24da6b a96 34821f2 202
inc 32 9f42fe6d3 150ef0d ad2 f42fe6d4 286
inc 64 7fffffffffffffff 1 ac2 8000000000000000 a96
inc 64 8000000000000000 8000000000000000 293 8000000000000001 283
inc 64 0 ffffffffffffffff a46 1 202
inc 64 d6efd8c244 386ec53c3 286 d6efd8c245 202
inc 64 178 1 2d2 179 202
dec 8 7f 1 2c6 7e 206
dec 8 80 80 2d3 7f a13
dec 8 0 ff 216 ff 296
dec 8 dbd361 10e5d1031121ee a06 60 206
dec 8 a 3277 a16 9 206
dec 16 7fff 1 a93 7ffe 203
dec 16 8000 8000 212 7fff a16
dec 16 0 ffff a12 ffff 296
dec 16 3a156adc1ffc9421 c732270651 a87 9420 283
dec 16 a 2d120134f2 a17 9 207
dec 32 7fffffff 1 286 7ffffffe 202
dec 32 80000000 80000000 2c6 7fffffff a16
dec 32 0 ffffffff 282 ffffffff 296
dec 32 a2c7033a 0 ad6 a2c70339 286
dec 32 1e afd 2c3 1d 207
dec 64 7fffffffffffffff 1 a07 7ffffffffffffffe 203
dec 64 8000000000000000 8000000000000000 203 7fffffffffffffff a17
dec 64 0 ffffffffffffffff 293 ffffffffffffffff 297
dec 64 4e 13ed0976 286 4d 206
dec 64 27265024 6ee73ae0fc0623e7 a86 27265023 202
neg 8 7f 1 2c7 81 297
neg 8 80 80 a82 80 a83
neg 8 0 ff a12 0 246
neg 8 3fff85e0c4b 167de8d09b63d 256 b5 293
neg 8 1bb117f1 4 203 f 217
neg 16 7fff 1 257 8001 293
neg 16 8000 8000 a86 8000 a87
neg 16 0 ffff 2c7 0 246
neg 16 6dc4238306 1e8baf370e4 203 7cfa 217
neg 16 288d7b4ee0a79 23150050f64717 a57 f587 297
neg 32 7fffffff 1 a57 80000001 293
neg 32 80000000 80000000 292 80000000 a87
neg 32 0 ffffffff 286 0 246
neg 32 57fc26842be 134 a82 3d97bd42 217
neg 32 3b21af 1567 a83 ffc4de51 293
neg 64 7fffffffffffffff 1 202 8000000000000001 293
neg 64 8000000000000000 8000000000000000 ad7 8000000000000000 a87
neg 64 0 ffffffffffffffff a12 0 246
neg 64 3 f644f a87 fffffffffffffffd 293
neg 64 64163e0d7c15bae0 1678a2c a92 9be9c1f283ea4520 283
shl 8 7be2f461d5c5dd23 0 ad3 23 ad3
shl 8 de8fb0c9ead6c4fb 1 287 f6 287
shl 8 11ef585cf408a211 7 206 80 282
shl 8 82c13719a7104df5 8 282 0 247
shl 8 6b616bf993858649 1f 2d3 0 a46
shl 8 5dd24508cc028099 21 292 32 a03
shl 8 24296586 15cd0a27b a92 0 a46
shl 8 7c8f46 47839618221 216 8c a82
shl 16 a11e6e42e7a42297 0 2d7 2297 2d7
shl 16 2e4ebdb22684aada 1 202 55b4 a07
shl 16 d29512fb9cdd068d f a53 8000 286
shl 16 7ff68d936131ae37 10 257 0 a47
shl 16 bf45b047e068b8b9 1f a12 0 a46
shl 16 544f742c62f0ea2a 21 ad7 d454 283
shl 16 12650 5e048 2d2 5000 206
shl 16 147c7d9b8 502 a97 66e0 203
shl 32 25a95cc98892d273 0 2c3 8892d273 2c3
shl 32 ee21a0c8ee175d5c 1 2d2 dc2ebab8 287
shl 32 38947a7c963a4417 1f a97 80000000 a87
shl 32 9f06a1edc063ffd3 20 a12 c063ffd3 a12
shl 32 41ad2f81a0b12cc3 1f 213 80000000 a87
shl 32 edbdbadffd25278d 21 297 fa4a4f1a 283
shl 32 18b4dbf3276 a96142f724fe78 a12 76000000 a06
shl 32 2a8 a712 a83 aa00000 206
shl 64 6020939c66311965 0 ad2 6020939c66311965 ad2
shl 64 869edb5cbee2a851 1 a96 d3db6b97dc550a2 a03
shl 64 6d49ba038c9a80e5 3f 213 8000000000000000 a86
shl 64 907907db98972d01 40 213 907907db98972d01 213
shl 64 8531894592e156a3 1f 246 c970ab5180000000 a86
shl 64 8a10372b26dd2ff1 21 2d6 4dba5fe200000000 a06
shl 64 23cd 2a56d85 ad3 479a0 206
shl 64 8454e 7f12a10 a56 8454e0000 206
shr 8 3b0a60437e2d1e7 0 257 e7 257
shr 8 6b02106227742b9f 1 a16 4f a03
shr 8 805d65734a9b51f 7 a87 0 246
shr 8 19f06bc8bc91a0eb 8 ac2 0 a47
shr 8 c326ffe0ede8c0d1 1f a03 0 a46
shr 8 49eb98283bcfefea 21 242 75 a02
shr 8 fa4f6c956ff86 13fb036 ad3 0 a46
shr 8 13979f1ff 746f5b 297 0 a46
shr 16 402574152d6d80d3 0 282 80d3 282
shr 16 166985f2fa18e798 1 ad2 73cc a06
shr 16 7c2d417388d43adf f 243 0 246
shr 16 6670fb33dbc1f40a 10 ac6 0 a47
shr 16 bcbd42589120b0b3 1f 2c7 0 a46
shr 16 40b2681d71a8f923 21 213 7c91 a03
shr 16 3c63c2776b26cb b a92 4 203
shr 16 335 f4d09d01ac9a187 282 6 206
shr 32 5592c0e7db01d7b9 0 a53 db01d7b9 a53
shr 32 3e0c7116fbd973d0 1 a92 7decb9e8 a06
shr 32 3b24b10fc1a4e08b 1f 287 1 a03
shr 32 90ece378e01c5c8 20 a52 8e01c5c8 a52
shr 32 ac3a56d42312d561 1f a93 0 246
shr 32 e7d86292b59899c0 21 a13 5acc4ce0 a02
shr 32 0 11809b74cbfd 213 0 246
shr 32 f2e bead3d0885390 2c6 0 246
shr 64 36b30df410238ef3 0 a53 36b30df410238ef3 a53
shr 64 8cbcb27f07bfadc4 1 a87 465e593f83dfd6e2 a06
shr 64 a9da2bd64e98399 3f 206 0 246
shr 64 e4db869bde622154 40 a82 e4db869bde622154 a82
shr 64 ad889922ed55b7ab 1f 2c6 15b113245 a03
shr 64 9731457d2a79f667 21 287 4b98a2be a07
shr 64 acc2a2592d2c6c 1d3c375 2c6 5 206
shr 64 391c6224d26538e 9e a83 e471889 202
sar 8 33c2b970a67ade55 0 a46 55 a46
sar 8 a476ee7405494ca7 1 2c3 d3 283
sar 8 b1ead8595bfc40e9 7 ac7 ff 287
sar 8 8d8657e6cf14f79f 8 a17 ff 287
sar 8 319f78d56661d0d9 1f a96 ff 287
sar 8 c36ac69355493cdf 21 253 ef 283
sar 8 121dc 6559bc27c0fdc 2d7 ff 287
sar 8 b287aacf 708906606279 213 ff 287
sar 16 f2adbca132c258d1 0 283 58d1 283
sar 16 b4a0eeaf959eb940 1 a12 dca0 286
sar 16 58ce74ecb44ca6e9 f 292 ffff 286
sar 16 195a4694b181b721 10 2c2 ffff 287
sar 16 65585652620f26f 1f ad7 ffff 287
sar 16 3181c2b7cb5dc874 21 2d2 e43a 286
sar 16 2857504 e421ed 213 3 207
sar 16 16f840dbb2f56 4fd0e02c577 a96 0 246
sar 32 8ffeb0c915313227 0 2d3 15313227 2d3
sar 32 ba10762ebde273a6 1 a02 def139d3 282
sar 32 9b70e5cbbe48f1f 1f 2c2 ffffffff 286
sar 32 a266a04aaad4d693 20 a13 aad4d693 a13
sar 32 9275351c213ff961 1f ad3 0 246
sar 32 178cbfb2cbad400a 21 a86 e5d6a005 286
sar 32 3a4af9214d9ce 58532b2e5 286 fc90a6ce 282
sar 32 7b9e4f77f 71908238 2c2 ffffffb9 283
sar 64 c2300a25ba989a0d 0 206 c2300a25ba989a0d 206
sar 64 a926110f714f5000 1 a02 d4930887b8a7a800 286
sar 64 dcfe839b56595df7 3f ac3 ffffffffffffffff 287
sar 64 e51302923611c1d0 40 a82 e51302923611c1d0 a82
sar 64 60a935a2070935f3 1f a82 c1526b44 206
sar 64 ea9c05f3b7d1fa9c 21 282 fffffffff54e02f9 287
sar 64 2df5fb7570dc7 a72254b4b946b a57 5b 203
sar 64 190ceff2 f9b 207 3 206
";

#[derive(Clone, Copy)]
struct Row {
    op: AluOp,
    width: Width,
    a: u64,
    b: u64,
    before: u64,
    value: u64,
    after: u64,
}

fn operation(name: &str) -> Option<AluOp> {
    match name {
        "add" => Some(AluOp::Add),
        "or" => Some(AluOp::Or),
        "adc" => Some(AluOp::Adc),
        "sbb" => Some(AluOp::Sbb),
        "and" => Some(AluOp::And),
        "sub" => Some(AluOp::Sub),
        "xor" => Some(AluOp::Xor),
        "inc" => Some(AluOp::Inc),
        "dec" => Some(AluOp::Dec),
        "neg" => Some(AluOp::Neg),
        "shl" => Some(AluOp::Shl),
        "shr" => Some(AluOp::Shr),
        "sar" => Some(AluOp::Sar),
        _ => None,
    }
}

fn width(bits: &str) -> Option<Width> {
    match bits {
        "8" => Some(Width::W8),
        "16" => Some(Width::W16),
        "32" => Some(Width::W32),
        "64" => Some(Width::W64),
        _ => None,
    }
}

fn number(word: &str) -> Option<u64> {
    u64::from_str_radix(word, 16).ok()
}

fn row_of(line: &str) -> Option<Row> {
    let mut words = line.split_whitespace();
    Some(Row {
        op: operation(words.next()?)?,
        width: width(words.next()?)?,
        a: number(words.next()?)?,
        b: number(words.next()?)?,
        before: number(words.next()?)?,
        value: number(words.next()?)?,
        after: number(words.next()?)?,
    })
}

/// The flags of a mask of undefined flags, at their places in the word.
fn word_of(mask: u8) -> u64 {
    pack(Flags {
        cf: mask & 1 != 0,
        pf: mask & 2 != 0,
        af: mask & 4 != 0,
        zf: mask & 8 != 0,
        sf: mask & 16 != 0,
        of: mask & 32 != 0,
        rest: 0,
    })
}

#[test]
fn flags_of_a_processor(rt: HostRuntime) {
    let mut count = 0_usize;
    for line in MEASURED.lines() {
        let row = row_of(line).expect(&rt, "a line has an operation and its numbers");
        let out = alu(row.op, row.width, row.a, row.b, unpack(row.before));
        let defined = !word_of(out.undefined);
        assert!(rt; out.value == row.value, "{line}");
        assert!(rt; pack(out.flags) & defined == row.after & defined, "{line}");
        count = count.saturating_add(1);
    }
    assert_eq!(rt; count, 296);
}
