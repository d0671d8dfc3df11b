// What each byte may be part of.
// The table's rows are laid out by hand, and `rt fmt` leaves them.
ghost use Rattle.std.specs.Prelude.{◌≡◌, ◌&&◌, ◌<◌, get_or};
ghost use Rattle.value_cursor.specs.Bytes.{in_class, Classes};

// The classes, each a bit of a byte's number in the table:
//   bit 0, 1    blank: space or tab
//   bit 1, 2    URI: 0x21 to 0x7E without < > "
//   bit 2, 4    token: letters, digits and - . ! % * _ + ` ' ~
//   bit 3, 8    text of a quoted string: 9, 32 to 126 without " and \, 128 to 255
//   bit 4, 16   after a backslash in a quoted string: up to 127 without 10 and 13
pub(crate) const BLANK: u8 = 0;

pub(crate) const URI: u8 = 1;

pub(crate) const TOKEN: u8 = 2;

pub(crate) const TEXT: u8 = 3;

pub(crate) const ESCAPABLE: u8 = 4;

// The classes of every byte, 16 to a row. Under each row stand its bytes, in the same order.
const CLASSES: [u8; 256] = [
    16, 16, 16, 16, 16, 16, 16, 16, 16, 25, 0, 16, 16, 0, 16, 16,
    // NUL SOH STX ETX EOT ENQ ACK BEL  BS TAB  LF  VT  FF  CR  SO  SI
    16, 16, 16, 16, 16, 16, 16, 16, 16, 16, 16, 16, 16, 16, 16, 16,
    // DLE DC1 DC2 DC3 DC4 NAK SYN ETB CAN  EM SUB ESC  FS  GS  RS  US
    25, 30, 16, 26, 26, 30, 26, 30, 26, 26, 30, 30, 26, 30, 30, 26,
    //  SP   !   "   #   $   %   &   '   (   )   *   +   ,   -   .   /
    30, 30, 30, 30, 30, 30, 30, 30, 30, 30, 26, 26, 24, 26, 24, 26,
    //   0   1   2   3   4   5   6   7   8   9   :   ;   <   =   >   ?
    26, 30, 30, 30, 30, 30, 30, 30, 30, 30, 30, 30, 30, 30, 30, 30,
    //   @   A   B   C   D   E   F   G   H   I   J   K   L   M   N   O
    30, 30, 30, 30, 30, 30, 30, 30, 30, 30, 30, 26, 18, 26, 26, 30,
    //   P   Q   R   S   T   U   V   W   X   Y   Z   [   \   ]   ^   _
    30, 30, 30, 30, 30, 30, 30, 30, 30, 30, 30, 30, 30, 30, 30, 30,
    //   `   a   b   c   d   e   f   g   h   i   j   k   l   m   n   o
    30, 30, 30, 30, 30, 30, 30, 30, 30, 30, 30, 26, 26, 26, 30, 16,
    //   p   q   r   s   t   u   v   w   x   y   z   {   |   }   ~ DEL
    8, 8, 8, 8, 8, 8, 8, 8, 8, 8, 8, 8, 8, 8, 8, 8,
    //  80  81  82  83  84  85  86  87  88  89  8A  8B  8C  8D  8E  8F
    8, 8, 8, 8, 8, 8, 8, 8, 8, 8, 8, 8, 8, 8, 8, 8,
    //  90  91  92  93  94  95  96  97  98  99  9A  9B  9C  9D  9E  9F
    8, 8, 8, 8, 8, 8, 8, 8, 8, 8, 8, 8, 8, 8, 8, 8,
    //  A0  A1  A2  A3  A4  A5  A6  A7  A8  A9  AA  AB  AC  AD  AE  AF
    8, 8, 8, 8, 8, 8, 8, 8, 8, 8, 8, 8, 8, 8, 8, 8,
    //  B0  B1  B2  B3  B4  B5  B6  B7  B8  B9  BA  BB  BC  BD  BE  BF
    8, 8, 8, 8, 8, 8, 8, 8, 8, 8, 8, 8, 8, 8, 8, 8,
    //  C0  C1  C2  C3  C4  C5  C6  C7  C8  C9  CA  CB  CC  CD  CE  CF
    8, 8, 8, 8, 8, 8, 8, 8, 8, 8, 8, 8, 8, 8, 8, 8,
    //  D0  D1  D2  D3  D4  D5  D6  D7  D8  D9  DA  DB  DC  DD  DE  DF
    8, 8, 8, 8, 8, 8, 8, 8, 8, 8, 8, 8, 8, 8, 8, 8,
    //  E0  E1  E2  E3  E4  E5  E6  E7  E8  E9  EA  EB  EC  ED  EE  EF
    8, 8, 8, 8, 8, 8, 8, 8, 8, 8, 8, 8, 8, 8, 8, 8,
    //  F0  F1  F2  F3  F4  F5  F6  F7  F8  F9  FA  FB  FC  FD  FE  FF
];

// The table, once for a call: a constant array is copied wherever it is named, so this copy is lent from there on.
pub(crate) fn table() -> [u8; 256]
    ensures { Classes result }
{
    CLASSES
}

// Byte b is in a class.
pub(crate) fn has(classes: &[u8; 256], b: u8, class: u8) -> bool
    requires { (class < 5) × Classes classes.now }
    ensures { result ≡ in_class class b }
{
    (classes[usize::from(b)] >> class) % 2 == 1
}

// The classes of byte b.
fn of(classes: &[u8; 256], b: u8) -> u8
    ensures { result ≡ get_or classes.now b 0 }
{
    classes[usize::from(b)]
}

// Four bytes are all in a class: one test for the four.
pub(crate) fn have(classes: &[u8; 256], a: u8, b: u8, c: u8, d: u8, class: u8) -> bool
    requires { (class < 5) × Classes classes.now }
    ensures { result ≡ (in_class class a && (in_class class b && (in_class class c && in_class class d))) }
{
    let first = of(classes, a) & of(classes, b);
    let second = of(classes, c) & of(classes, d);
    ((first & second) >> class) % 2 == 1
}
