//! The sections of codes, made by tools/explain of docs/CODES.md and docs/MODULE_CODES.md.

/// A code, what it means, and its section.
#[derive(Clone, Copy)]
pub struct Section {
    pub code: &'static str,
    pub meaning: &'static str,
    pub text: &'static str,
}

/// The section of a code.
pub fn section_of(code: &[u8]) -> Option<Section> {
    let (family, number) = code.split_first()?;
    match *family {
        b'L' => family_l(number),
        b'S' => family_s(number),
        b'F' => family_f(number),
        b'G' => family_g(number),
        b'U' => family_u(number),
        b'E' => family_e(number),
        b'N' => family_n(number),
        b'M' => family_m(number),
        b'Q' => family_q(number),
        b'P' => family_p(number),
        _ => None,
    }
}

/// The section of the code of this number, of those that begin with L.
fn family_l(number: &[u8]) -> Option<Section> {
    match number {
        b"1" => Some(section_l1()),
        b"2" => Some(section_l2()),
        b"3" => Some(section_l3()),
        b"4" => Some(section_l4()),
        b"5" => Some(section_l5()),
        b"6" => Some(section_l6()),
        _ => None,
    }
}

/// The section of the code of this number, of those that begin with S.
fn family_s(number: &[u8]) -> Option<Section> {
    match number {
        b"1" => Some(section_s1()),
        b"2" => Some(section_s2()),
        b"3" => Some(section_s3()),
        _ => None,
    }
}

/// The section of the code of this number, of those that begin with F.
fn family_f(number: &[u8]) -> Option<Section> {
    match number {
        b"1" => Some(section_f1()),
        b"2" => Some(section_f2()),
        b"3" => Some(section_f3()),
        b"4" => Some(section_f4()),
        _ => None,
    }
}

/// The section of the code of this number, of those that begin with G.
fn family_g(number: &[u8]) -> Option<Section> {
    match number {
        b"1" => Some(section_g1()),
        b"2" => Some(section_g2()),
        b"3" => Some(section_g3()),
        b"4" => Some(section_g4()),
        b"5" => Some(section_g5()),
        _ => None,
    }
}

/// The section of the code of this number, of those that begin with U.
fn family_u(number: &[u8]) -> Option<Section> {
    match number {
        b"1" => Some(section_u1()),
        b"2" => Some(section_u2()),
        b"3" => Some(section_u3()),
        b"4" => Some(section_u4()),
        b"5" => Some(section_u5()),
        b"6" => Some(section_u6()),
        b"7" => Some(section_u7()),
        _ => None,
    }
}

/// The section of the code of this number, of those that begin with E.
fn family_e(number: &[u8]) -> Option<Section> {
    match number {
        b"1" => Some(section_e1()),
        b"2" => Some(section_e2()),
        b"3" => Some(section_e3()),
        b"4" => Some(section_e4()),
        b"5" => Some(section_e5()),
        b"6" => Some(section_e6()),
        b"7" => Some(section_e7()),
        b"8" => Some(section_e8()),
        b"9" => Some(section_e9()),
        b"10" => Some(section_e10()),
        _ => None,
    }
}

/// The section of the code of this number, of those that begin with N.
fn family_n(number: &[u8]) -> Option<Section> {
    match number {
        b"1" => Some(section_n1()),
        b"2" => Some(section_n2()),
        b"3" => Some(section_n3()),
        b"4" => Some(section_n4()),
        b"5" => Some(section_n5()),
        b"6" => Some(section_n6()),
        b"7" => Some(section_n7()),
        _ => None,
    }
}

/// The section of the code of this number, of those that begin with M.
fn family_m(number: &[u8]) -> Option<Section> {
    match number {
        b"1" => Some(section_m1()),
        b"2" => Some(section_m2()),
        b"3" => Some(section_m3()),
        b"4" => Some(section_m4()),
        b"5" => Some(section_m5()),
        b"6" => Some(section_m6()),
        b"7" => Some(section_m7()),
        _ => None,
    }
}

/// The section of the code of this number, of those that begin with Q.
fn family_q(number: &[u8]) -> Option<Section> {
    match number {
        b"1" => Some(section_q1()),
        b"2" => Some(section_q2()),
        b"3" => Some(section_q3()),
        _ => None,
    }
}

/// The section of the code of this number, of those that begin with P.
fn family_p(number: &[u8]) -> Option<Section> {
    match number {
        b"1" => Some(section_p1()),
        b"2" => Some(section_p2()),
        b"3" => Some(section_p3()),
        _ => None,
    }
}

fn section_l1() -> Section {
    Section {
        code: "L1",
        meaning: "comment not closed",
        text: "L1 comment not closed\n\nA comment is still open at the unit's end. Comments nest. Place: the outermost `(*` that is open.\n\n```sml\nval x = 1 (* (* inner *)\n```\n```text\n1 fault L1 1.11 comment not closed\n```\nCure: close each `(*` with its own `*)`. A declaration before the comment is only whole when its end was seen, so it is refused too.\n\n```sml\nval x = 1 (* (* inner *) *)\n```\n```text\n1 ok\n  val x : int\n```\n",
    }
}

fn section_l2() -> Section {
    Section {
        code: "L2",
        meaning: "string not closed",
        text: "L2 string not closed\n\nA newline or the unit's end stands in a string. Place: the string's opening quote.\n\n```sml\nval s = \"no end\n```\n```text\n1 fault L2 1.9 string not closed\n```\nCure: close the string on its line, or break it with a gap: a backslash at the line's end and one more before it goes on.\n\n```sml\nval s = \"no end, \\\n        \\and it goes on\"\n```\n```text\n1 ok\n  val s : string\n```\n",
    }
}

fn section_l3() -> Section {
    Section {
        code: "L3",
        meaning: "bad escape or character",
        text: "L3 bad escape or character\n\nNo escape begins at a backslash in a string; or a character, `#\"...\"`, doesn't have length one. Place: the backslash; for a length other than one, the `#`.\n\n```sml\nval s = \"\\q\"\n```\n```text\n1 fault L3 1.10 bad escape or character\n```\n```sml\nval c = #\"ab\"\n```\n```text\n1 fault L3 1.9 bad escape or character\n```\nCure: use one of the escapes, and write `\\\\` for a backslash. Characters are at most 255.\n\n```sml\nval s = \"\\\\q\"\nval c = #\"a\"\n```\n```text\n1 ok\n  val s : string\n2 ok\n  val c : char\n```\n",
    }
}

fn section_l4() -> Section {
    Section {
        code: "L4",
        meaning: "bad byte",
        text: "L4 bad byte\n\nNothing begins at a byte: neither white space, a comment nor a token. Place: the byte.\n\n```sml\nval x = 1.\n```\n```text\n1 fault L4 1.10 bad byte\n```\nCure: remove the byte. Bytes above 127 stand in comments alone. A dot stands only within a long identifier, a real and `...`.\n\n```sml\nval x = 1.0\n```\n```text\n1 ok\n  val x : real\n```\n",
    }
}

fn section_l5() -> Section {
    Section {
        code: "L5",
        meaning: "literal too large",
        text: "L5 literal too large\n\nAn integer is of magnitude over 9,223,372,036,854,775,807, or a word over 18,446,744,073,709,551,615. Place: the literal.\n\n```sml\nval n = 9223372036854775808\n```\n```text\n1 fault L5 1.9 literal too large\n```\nCure: use a smaller number.\n\n```sml\nval n = 9223372036854775807\n```\n```text\n1 ok\n  val n : int\n```\n",
    }
}

fn section_l6() -> Section {
    Section {
        code: "L6",
        meaning: "unit too large",
        text: "L6 unit too large\n\nThe unit has more than 1,048,576 bytes. Place: 1.1. It is the unit's only reply, `1 fault L6 1.1 unit too large`.\n\nCure: split the unit.\n",
    }
}

fn section_s1() -> Section {
    Section {
        code: "S1",
        meaning: "unexpected token",
        text: "S1 unexpected token\n\nThe tokens before this one begin some unit, and with it they begin none. Place: the token.\n\n```sml\nval x = (1, )\n```\n```text\n1 fault S1 1.13 unexpected token\n```\nCure: what stands before the token is right as far as it goes; write what can follow it.\n\n```sml\nval x = (1, 2)\n```\n```text\n1 ok\n  val x : int * int\n```\n",
    }
}

fn section_s2() -> Section {
    Section {
        code: "S2",
        meaning: "unit ends too early",
        text: "S2 unit ends too early\n\nThe tokens of the unit begin some unit, but are none. Place: the last token.\n\n```sml\nval x =\n```\n```text\n1 fault S2 1.7 unit ends too early\n```\nCure: finish the declaration.\n\n```sml\nval x = 1\n```\n```text\n1 ok\n  val x : int\n```\n",
    }
}

fn section_s3() -> Section {
    Section {
        code: "S3",
        meaning: "tree too high",
        text: "S3 tree too high\n\nThe tree of the declaration is higher than 4,000. Place: 1.1. The rest of the unit isn't read. A bracket counts as a level: `val x = (1)` with 3,998 pairs of brackets round the `1` is accepted, and with 3,999 it is answered `1 fault S3 1.1 tree too high`. An operator, an application, an arrow or an element of a list adds levels too: a list of 1,999 integers is within the limit, and one of 2,000 isn't, since each element is a pair and an application of `::`.\n\nCure: name parts of the expression by declarations of their own.\n",
    }
}

fn section_f1() -> Section {
    Section {
        code: "F1",
        meaning: "operator without operand",
        text: "F1 operator without operand\n\nAn operator is first or last in its sequence, or stands directly after another. Place: the first such operator.\n\n```sml\nval x = = 3\n```\n```text\n1 fault F1 1.9 operator without operand\n```\nCure: give it its operands, or write `op` before it to use it as a value.\n\n```sml\nval x = 2 = 3\nval y = op =\n```\n```text\n1 ok\n  val x : bool\n2 ok\n  val y : ''a * ''a -> bool\n```\n",
    }
}

fn section_f2() -> Section {
    Section {
        code: "F2",
        meaning: "sides mixed at one level",
        text: "F2 sides mixed at one level\n\nOf two operators of one level, with none looser between them, one groups to the left and one to the right. Place: the second.\n\n```sml\ninfixr 6 ++ val x = 1 + 2 ++ 3\n```\n```text\n1 ok\n2 fault F2 1.15 sides mixed at one level\n```\nCure: write brackets.\n\n```sml\ninfixr 6 ++\nfun a ++ b = a * b\nval x = 1 + (2 ++ 3)\n```\n```text\n1 ok\n2 ok\n  val ++ : int * int -> int\n3 ok\n  val x : int\n```\n",
    }
}

fn section_f3() -> Section {
    Section {
        code: "F3",
        meaning: "fixity level not one digit",
        text: "F3 fixity level not one digit\n\nThe level of `infix` or `infixr` isn't one digit. Place: the level.\n\n```sml\ninfix 12 ##\n```\n```text\n1 fault F3 1.7 fixity level not one digit\n```\nCure: use a level from 0 to 9.\n\n```sml\ninfix 5 ##\n```\n```text\n1 ok\n```\n",
    }
}

fn section_f4() -> Section {
    Section {
        code: "F4",
        meaning: "malformed pattern or clause head",
        text: "F4 malformed pattern or clause head\n\nWith its operators resolved, a pattern is neither one atom nor a long identifier with one atom; or the head of a clause of `fun` is none. Place: the first token of the sequence.\n\n```sml\nval 1 x = 2\n```\n```text\n1 fault F4 1.5 malformed pattern or clause head\n```\n```sml\nfun head x :: rest = x\n```\n```text\n1 fault F4 1.5 malformed pattern or clause head\n```\nCure: put brackets round patterns with arguments.\n\n```sml\nfun head (x :: rest) = x\n```\n```text\n1 ok\n  val head : 'a list -> 'a\n```\n",
    }
}

fn section_g1() -> Section {
    Section {
        code: "G1",
        meaning: "clauses with different names",
        text: "G1 clauses with different names\n\nA clause of `fun` has another name than the first. Place: the clause's name.\n\n```sml\nfun f 0 = 1 | g n = 2\n```\n```text\n1 fault G1 1.15 clauses with different names\n```\nCure: give all clauses one name, or separate functions with `and`.\n\n```sml\nfun f 0 = 1 | f n = 2\n```\n```text\n1 ok\n  val f : int -> int\n```\n",
    }
}

fn section_g2() -> Section {
    Section {
        code: "G2",
        meaning: "clauses with different numbers of arguments",
        text: "G2 clauses with different numbers of arguments\n\nA clause of `fun` has more or fewer arguments than the first. Place: the clause.\n\n```sml\nfun f 0 = 1 | f 1 2 = 3\n```\n```text\n1 fault G2 1.15 clauses with different numbers of arguments\n```\nCure: give all clauses the same number of arguments.\n\n```sml\nfun f 0 n = n | f m n = m\n```\n```text\n1 ok\n  val f : int -> int -> int\n```\n",
    }
}

fn section_g3() -> Section {
    Section {
        code: "G3",
        meaning: "bound twice",
        text: "G3 bound twice\n\nOne list binds a name twice: labels of a row; type variables of one list; type constructors, value constructors, exceptions, structures, signatures, functors or specified names of one group with `and`; or an explicit list names a type variable that is in scope. Place: the second occurrence.\n\n```sml\nval x = {a = 1, a = 2}\n```\n```text\n1 fault G3 1.17 bound twice\n```\nCure: rename one of them. (A variable twice in a pattern is E10.)\n\n```sml\nval x = {a = 1, b = 2}\n```\n```text\n1 ok\n  val x : {a : int, b : int}\n```\n",
    }
}

fn section_g4() -> Section {
    Section {
        code: "G4",
        meaning: "identifier can't be bound",
        text: "G4 identifier can't be bound\n\n`true`, `false`, `nil`, `::` or `ref` is bound or specified as a value, a constructor or an exception; or `it` as a constructor or an exception. A pattern outside `rec` doesn't bind the first five. Type constructors may have the names `ref` and `it`. Place: the identifier.\n\n```sml\nval rec nil = fn x => x\n```\n```text\n1 fault G4 1.9 identifier can't be bound\n```\nCure: use another name.\n\n```sml\nval rec none = fn x => x\n```\n```text\n1 ok\n  val none : 'a -> 'a\n```\n",
    }
}

fn section_g5() -> Section {
    Section {
        code: "G5",
        meaning: "real in a pattern",
        text: "G5 real in a pattern\n\nA pattern has a real constant. Place: the constant.\n\n```sml\nval f = fn 1.5 => 0\n```\n```text\n1 fault G5 1.12 real in a pattern\n```\nCure: bind a variable, and compare.\n\n```sml\nval f = fn x => if x < 1.5 then 0 else 1\n```\n```text\n1 ok\n  val f : real -> int\n```\n",
    }
}

fn section_u1() -> Section {
    Section {
        code: "U1",
        meaning: "types clash",
        text: "U1 types clash\n\nTwo types with different heads have to be equal. Place: the phrase that asks for it, which is an application, a constraint, a rule or a binding's pattern.\n\n```sml\nval a = 1\nval b = a 2\n```\n```text\n1 ok\n  val a : int\n2 fault U1 1.9 types clash\n```\nCure: compare the types that the phrase joins; here `a` is applied and is no function.\n\n```sml\nval a = fn n => n + 1\nval b = a 2\n```\n```text\n1 ok\n  val a : int -> int\n2 ok\n  val b : int\n```\n",
    }
}

fn section_u2() -> Section {
    Section {
        code: "U2",
        meaning: "circular type",
        text: "U2 circular type\n\nA type has to be a part of itself. Place: as for U1.\n\n```sml\nval f = fn x => x x\n```\n```text\n1 fault U2 1.17 circular type\n```\nCure: give the function a datatype as its argument's type.\n\n```sml\ndatatype t = T of t -> t\nval f = fn T x => x (T x)\n```\n```text\n1 ok\n  datatype t = ?1\n  | T : (?1 -> ?1) -> ?1\n  con T : (?1 -> ?1) -> ?1\n2 ok\n  val f : ?1 -> ?1\n```\n",
    }
}

fn section_u3() -> Section {
    Section {
        code: "U3",
        meaning: "type name too new",
        text: "U3 type name too new\n\nThe type of a variable that was there before mentions a datatype that was declared later. Place: the pattern that binds the variable, or the declaration that ends.\n\n```sml\nfun f x = let datatype d = D fun g D = () in g x end\n```\n```text\n1 fault U3 1.46 type name too new\n```\nCure: declare the datatype outside.\n\n```sml\ndatatype d = D\nfun f x = let fun g D = () in g x end\n```\n```text\n1 ok\n  datatype d = ?=1\n  | D : ?=1\n  con D : ?=1\n2 ok\n  val f : ?=1 -> unit\n```\n",
    }
}

fn section_u4() -> Section {
    Section {
        code: "U4",
        meaning: "not an equality type",
        text: "U4 not an equality type\n\nA type that doesn't admit equality stands where one that does is asked for. Place: as for U1.\n\n```sml\nstructure S :> sig type t val a : t end = struct type t = int val a = 1 end\nval b = S.a = S.a\n```\n```text\n1 ok\n  structure S\n  type S.t = ?1\n  val S.a : ?1\n2 fault U4 1.9 not an equality type\n```\nCure: specify the type with `eqtype`, or compare otherwise.\n\n```sml\nstructure S :> sig eqtype t val a : t end = struct type t = int val a = 1 end\nval b = S.a = S.a\n```\n```text\n1 ok\n  structure S\n  type S.t = ?=1\n  val S.a : ?=1\n2 ok\n  val b : bool\n```\n",
    }
}

fn section_u5() -> Section {
    Section {
        code: "U5",
        meaning: "not in the overloading class",
        text: "U5 not in the overloading class\n\nAn overloaded identifier is used at a type outside its class. Place: as for U1.\n\n```sml\nval b = true + false\n```\n```text\n1 fault U5 1.9 not in the overloading class\n```\nCure: use the identifier at a type of its class, or one that is made for the type.\n\n```sml\nval b = true orelse false\n```\n```text\n1 ok\n  val b : bool\n```\n",
    }
}

fn section_u6() -> Section {
    Section {
        code: "U6",
        meaning: "record labels undetermined",
        text: "U6 record labels undetermined\n\nAt the end of the smallest value declaration around it, a row pattern with `...` doesn't have one set of labels. Place: the record pattern.\n\n```sml\nval g = fn {a, ...} => a\n```\n```text\n1 fault U6 1.12 record labels undetermined\n```\nCure: constrain the pattern.\n\n```sml\nval g = fn {a, ...} : {a : int, b : int} => a\n```\n```text\n1 ok\n  val g : {a : int, b : int} -> int\n```\n",
    }
}

fn section_u7() -> Section {
    Section {
        code: "U7",
        meaning: "explicit type variable not general",
        text: "U7 explicit type variable not general\n\nA type variable that the text names can't stand for every type. Place: the phrase that asks too much of it.\n\n```sml\nval 'a h = fn (x : 'a) => x + 1\n```\n```text\n1 fault U7 1.27 explicit type variable not general\n```\nCure: leave the variable out, or write the type that is meant.\n\n```sml\nval h = fn (x : int) => x + 1\n```\n```text\n1 ok\n  val h : int -> int\n```\n",
    }
}

fn section_e1() -> Section {
    Section {
        code: "E1",
        meaning: "unbound value",
        text: "E1 unbound value\n\nA value identifier is bound nowhere. Place: the identifier. After the text: the long identifier.\n\n```sml\nval y = x\n```\n```text\n1 fault E1 1.9 unbound value x\n```\nCure: declare it before. A declaration that was refused binds nothing.\n\n```sml\nval x = 1\nval y = x\n```\n```text\n1 ok\n  val x : int\n2 ok\n  val y : int\n```\n",
    }
}

fn section_e2() -> Section {
    Section {
        code: "E2",
        meaning: "unbound type",
        text: "E2 unbound type\n\nA type constructor is bound nowhere. Place: the identifier. After the text: the long identifier.\n\n```sml\nstructure S :> sig val x : t end = struct val x = 1 end\n```\n```text\n1 fault E2 1.28 unbound type t\n```\nCure: declare or specify the type before. A signature doesn't see the types of the structure's body.\n\n```sml\nstructure S :> sig type t val x : t end = struct type t = int val x = 1 end\n```\n```text\n1 ok\n  structure S\n  type S.t = ?1\n  val S.x : ?1\n```\n",
    }
}

fn section_e3() -> Section {
    Section {
        code: "E3",
        meaning: "unbound structure",
        text: "E3 unbound structure\n\nThe path of a long identifier leads nowhere. Place: the identifier. After the text: the shortest prefix of the path that is unbound.\n\n```sml\nval z = T.U.x\n```\n```text\n1 fault E3 1.9 unbound structure T\n```\nCure: declare the structure before.\n\n```sml\nstructure T = struct structure U = struct val x = 1 end end\nval z = T.U.x\n```\n```text\n1 ok\n  structure T\n  structure T.U\n  val T.U.x : int\n2 ok\n  val z : int\n```\n",
    }
}

fn section_e4() -> Section {
    Section {
        code: "E4",
        meaning: "wrong number of type arguments",
        text: "E4 wrong number of type arguments\n\nA type constructor has too many or too few arguments. Place: the type constructor.\n\n```sml\nval x : list = nil\n```\n```text\n1 fault E4 1.9 wrong number of type arguments\n```\nCure: give as many arguments as the type constructor has parameters.\n\n```sml\nval x : int list = nil\n```\n```text\n1 ok\n  val x : int list\n```\n",
    }
}

fn section_e5() -> Section {
    Section {
        code: "E5",
        meaning: "constructor expected",
        text: "E5 constructor expected\n\nIn a pattern: a long identifier that is no constructor, a constructor or an exception before `as`, an applied identifier that is no constructor, a constructor with an argument too many or too few. Also an exception bound to what is no exception. Place: the identifier.\n\n```sml\nval Fail = 3\n```\n```text\n1 fault E5 1.5 constructor expected\n```\nCure: give the constructor its argument, or use a name that is no constructor.\n\n```sml\nval Fail text = Fail \"no\"\nval failed = 3\n```\n```text\n1 ok\n  val text : string\n2 ok\n  val failed : int\n```\n",
    }
}

fn section_e6() -> Section {
    Section {
        code: "E6",
        meaning: "local type escapes",
        text: "E6 local type escapes\n\nThe type of `let .. in .. end` mentions a datatype that the `let` declares. Place: the `let`.\n\n```sml\nval x = let datatype d = D in D end\n```\n```text\n1 fault E6 1.9 local type escapes\n```\nCure: declare the datatype outside the `let`.\n\n```sml\ndatatype d = D\nval x = let val y = D in y end\n```\n```text\n1 ok\n  datatype d = ?=1\n  | D : ?=1\n  con D : ?=1\n2 ok\n  val x : ?=1\n```\n",
    }
}

fn section_e7() -> Section {
    Section {
        code: "E7",
        meaning: "type too large",
        text: "E7 type too large\n\nA scheme or the body of a type function that is given has more than 10,000 nodes. Each variable, arrow, row and applied name is a node. Place: the declaration or the specification; the type constructor of a `where type`, which is that of a `type` specification with a right side too; the signature or the functor's name, where a structure's types make a signature too large; and the first token of the type in a constraint.\n\n```sml\nval d = let\n  val a = (1, 1, 1, 1, 1, 1, 1, 1, 1, 1)\n  val b = (a, a, a, a, a, a, a, a, a, a)\n  val c = (b, b, b, b, b, b, b, b, b, b)\nin (c, c, c, c, c, c, c, c, c, c) end\n```\n```text\n1 fault E7 1.1 type too large\n```\nCure: make a list of parts that have one type, or seal parts by abstract types, which are one node each.\n\n```sml\nval d = let\n  val a = [1, 1, 1, 1, 1, 1, 1, 1, 1, 1]\n  val b = [a, a, a, a, a, a, a, a, a, a]\n  val c = [b, b, b, b, b, b, b, b, b, b]\nin [c, c, c, c, c, c, c, c, c, c] end\n```\n```text\n1 ok\n  val d : int list list list list\n```\n",
    }
}

fn section_e8() -> Section {
    Section {
        code: "E8",
        meaning: "type variable out of scope",
        text: "E8 type variable out of scope\n\nA type variable stands where none of its name is in scope. Place: the variable.\n\n```sml\nexception X of 'a\n```\n```text\n1 fault E8 1.16 type variable out of scope\n```\nCure: name it in the list before the type constructor, or leave it out.\n\n```sml\nexception X of int\ntype 'a pair = 'a * 'a\n```\n```text\n1 ok\n  exception X : int -> exn\n2 ok\n  type 'a pair = 'a * 'a\n```\n",
    }
}

fn section_e9() -> Section {
    Section {
        code: "E9",
        meaning: "right side of rec isn't a function",
        text: "E9 right side of rec isn't a function\n\nThe right side of `val rec` isn't `fn`, perhaps in brackets or with type constraints. Place: the right side.\n\n```sml\nval rec x = 3\n```\n```text\n1 fault E9 1.13 right side of rec isn't a function\n```\nCure: leave out `rec`, or write `fn`.\n\n```sml\nval x = 3\nval rec y = fn () => 3\n```\n```text\n1 ok\n  val x : int\n2 ok\n  val y : unit -> int\n```\n",
    }
}

fn section_e10() -> Section {
    Section {
        code: "E10",
        meaning: "variable bound twice in a pattern",
        text: "E10 variable bound twice in a pattern\n\nA variable stands twice in a pattern, or in the patterns of one group with `and`. Place: the second occurrence.\n\n```sml\nval (x, x) = (1, 2)\n```\n```text\n1 fault E10 1.9 variable bound twice in a pattern\n```\nCure: rename one of them.\n\n```sml\nval (x, y) = (1, 2)\n```\n```text\n1 ok\n  val x : int\n  val y : int\n```\n",
    }
}

fn section_n1() -> Section {
    Section {
        code: "N1",
        meaning: "unbound signature",
        text: "N1 unbound signature\n\nA signature identifier is bound nowhere. Place: the identifier. After the text: the identifier.\n\n```sml\nstructure A : S = struct end\n```\n```text\n1 fault N1 1.15 unbound signature S\n```\nCure: declare the signature before.\n\n```sml\nsignature S = sig type t end\nstructure A : S = struct type t = int end\n```\n```text\n1 ok\n  signature S\n  type S.t = %1\n2 ok\n  structure A\n  type A.t = int\n```\n",
    }
}

fn section_n2() -> Section {
    Section {
        code: "N2",
        meaning: "repeated specification",
        text: "N2 repeated specification\n\nA type, a value or a structure is specified twice in one `sig .. end`. Place: the first token of the later specification; several joined by `and` are one, which begins at its keyword.\n\n```sml\nstructure S :> sig type t type t end = struct type t = int end\n```\n```text\n1 fault N2 1.27 repeated specification\n```\nCure: remove one of them.\n\n```sml\nstructure S :> sig type t end = struct type t = int end\n```\n```text\n1 ok\n  structure S\n  type S.t = ?1\n```\n",
    }
}

fn section_n3() -> Section {
    Section {
        code: "N3",
        meaning: "name not free",
        text: "N3 name not free\n\n`where type` or `sharing` speaks of a type that isn't left open by the signature. Place: the type constructor.\n\n```sml\nsignature S = sig type t = int end where type t = bool\n```\n```text\n1 fault N3 1.47 name not free\n```\nCure: specify the type without a right side.\n\n```sml\nsignature S = sig type t end where type t = bool\n```\n```text\n1 ok\n  signature S\n  type S.t = bool\n```\n",
    }
}

fn section_n4() -> Section {
    Section {
        code: "N4",
        meaning: "equality lost",
        text: "N4 equality lost\n\n`where type` gives a type that has to admit equality one that doesn't. Place: the type constructor.\n\n```sml\nsignature H = sig eqtype t end where type t = int -> int\n```\n```text\n1 fault N4 1.43 equality lost\n```\nCure: specify it with `type`, or give a type that admits equality.\n\n```sml\nsignature H = sig type t end where type t = int -> int\n```\n```text\n1 ok\n  signature H\n  type H.t = int -> int\n```\n",
    }
}

fn section_n5() -> Section {
    Section {
        code: "N5",
        meaning: "constructors lost",
        text: "N5 constructors lost\n\n`where type` gives a datatype a right side that isn't a type constructor whose constructors have the same identifiers, applied to the parameters in order. Place: the type constructor.\n\n```sml\nsignature S = sig datatype d = C end where type d = int\n```\n```text\n1 fault N5 1.49 constructors lost\n```\nCure: replicate the datatype instead.\n\n```sml\ndatatype c = C\nsignature S = sig datatype d = datatype c end\n```\n```text\n1 ok\n  datatype c = ?=1\n  | C : ?=1\n  con C : ?=1\n2 ok\n  signature S\n  datatype S.d = ?=1\n  | C : ?=1\n  con S.C : ?=1\n```\n",
    }
}

fn section_n6() -> Section {
    Section {
        code: "N6",
        meaning: "arities differ",
        text: "N6 arities differ\n\nTypes with different numbers of parameters are shared. Place: the later type constructor.\n\n```sml\nsignature S = sig type t type 'a u sharing type t = u end\n```\n```text\n1 fault N6 1.53 arities differ\n```\nCure: share types with the same number of parameters.\n\n```sml\nsignature S = sig type t type u sharing type t = u end\n```\n```text\n1 ok\n  signature S\n  type S.t = %1\n  type S.u = %1\n```\n",
    }
}

fn section_n7() -> Section {
    Section {
        code: "N7",
        meaning: "constructors differ",
        text: "N7 constructors differ\n\nDatatypes whose constructors have different identifiers are shared. Place: the later type constructor.\n\n```sml\nsignature S = sig datatype a = A datatype b = B sharing type a = b end\n```\n```text\n1 fault N7 1.66 constructors differ\n```\nCure: specify one of them by `type`.\n\n```sml\nsignature S = sig datatype a = A type b sharing type a = b end\n```\n```text\n1 ok\n  signature S\n  datatype S.a = %=1\n  | A : %=1\n  type S.b = %=1\n  con S.A : %=1\n```\n",
    }
}

fn section_m1() -> Section {
    Section {
        code: "M1",
        meaning: "missing component",
        text: "M1 missing component\n\nThe structure doesn't have a specified component. For a path the shortest missing prefix is named.\n\n```sml\nstructure S :> sig type t val x : t end = struct type t = int val y = 3 end\n```\n```text\n1 fault M1 1.16 missing component x\n```\nCure: declare it in the body, or remove its specification.\n\n```sml\nstructure S :> sig type t val x : t end = struct type t = int val x = 3 end\n```\n```text\n1 ok\n  structure S\n  type S.t = ?1\n  val S.x : ?1\n```\n",
    }
}

fn section_m2() -> Section {
    Section {
        code: "M2",
        meaning: "wrong arity",
        text: "M2 wrong arity\n\nA type has another number of parameters than its specification.\n\n```sml\nstructure S : sig type t end = struct type 'a t = int end\n```\n```text\n1 fault M2 1.15 wrong arity t\n```\nCure: give both the same number of parameters.\n\n```sml\nstructure S : sig type 'a t end = struct type 'a t = int end\n```\n```text\n1 ok\n  structure S\n  type 'a S.t = int\n```\n",
    }
}

fn section_m3() -> Section {
    Section {
        code: "M3",
        meaning: "type doesn't admit equality",
        text: "M3 type doesn't admit equality\n\nA type that is specified with `eqtype` doesn't admit equality.\n\n```sml\nstructure S : sig eqtype t end = struct type t = int -> int end\n```\n```text\n1 fault M3 1.15 type doesn't admit equality t\n```\nCure: specify it with `type`.\n\n```sml\nstructure S : sig type t end = struct type t = int -> int end\n```\n```text\n1 ok\n  structure S\n  type S.t = int -> int\n```\n",
    }
}

fn section_m4() -> Section {
    Section {
        code: "M4",
        meaning: "type differs",
        text: "M4 type differs\n\nA type isn't the one that its specification gives.\n\n```sml\nstructure S : sig type t = int end = struct type t = bool end\n```\n```text\n1 fault M4 1.15 type differs t\n```\nCure: make them equal, or specify the type without a right side.\n\n```sml\nstructure S : sig type t end = struct type t = bool end\n```\n```text\n1 ok\n  structure S\n  type S.t = bool\n```\n",
    }
}

fn section_m5() -> Section {
    Section {
        code: "M5",
        meaning: "constructors differ",
        text: "M5 constructors differ\n\nA datatype doesn't have the specified constructors with their types.\n\n```sml\nstructure S : sig datatype d = A | B end = struct datatype d = A end\n```\n```text\n1 fault M5 1.15 constructors differ d\n```\nCure: declare the constructors as they are specified.\n\n```sml\nstructure S : sig datatype d = A | B end = struct datatype d = A | B end\n```\n```text\n1 ok\n  structure S\n  datatype S.d = ?=1\n  | A : ?=1\n  | B : ?=1\n  con S.A : ?=1\n  con S.B : ?=1\n```\n",
    }
}

fn section_m6() -> Section {
    Section {
        code: "M6",
        meaning: "value not general enough",
        text: "M6 value not general enough\n\nThe type of a value isn't at least as general as its specification.\n\n```sml\nstructure S :> sig val f : int -> int end = struct val f = 3 end\n```\n```text\n1 fault M6 1.16 value not general enough f\n```\nCure: compare the type of the value with the specification, each specified type standing for the body's.\n\n```sml\nstructure S :> sig val f : int -> int end = struct val f = fn n => n end\n```\n```text\n1 ok\n  structure S\n  val S.f : int -> int\n```\n",
    }
}

fn section_m7() -> Section {
    Section {
        code: "M7",
        meaning: "status differs",
        text: "M7 status differs\n\nA constructor or an exception is specified, and the structure has something else of that name.\n\n```sml\nstructure S : sig exception X end = struct val X = 3 end\n```\n```text\n1 fault M7 1.15 status differs X\n```\nCure: declare it as what it is specified to be.\n\n```sml\nstructure S : sig exception X end = struct exception X end\n```\n```text\n1 ok\n  structure S\n  exception S.X : exn\n```\n",
    }
}

fn section_q1() -> Section {
    Section {
        code: "Q1",
        meaning: "unbound functor",
        text: "Q1 unbound functor\n\nA functor identifier is bound nowhere. Place: the identifier. After the text: the identifier.\n\n```sml\nstructure A = F ()\n```\n```text\n1 fault Q1 1.15 unbound functor F\n```\nCure: declare the functor before.\n\n```sml\nfunctor F () = struct val x = 1 end\nstructure A = F ()\n```\n```text\n1 ok\n  functor F\n  val F.res.x : int\n2 ok\n  structure A\n  val A.x : int\n```\n",
    }
}

fn section_q2() -> Section {
    Section {
        code: "Q2",
        meaning: "exported type undetermined",
        text: "Q2 exported type undetermined\n\nThe environment of a declaration mentions a type that nothing determines. Place: 1.1.\n\n```sml\nval r = ref nil\n```\n```text\n1 fault Q2 1.1 exported type undetermined\n```\nCure: constrain the expression.\n\n```sml\nval r : int list ref = ref nil\n```\n```text\n1 ok\n  val r : int list ref\n```\n",
    }
}

fn section_q3() -> Section {
    Section {
        code: "Q3",
        meaning: "too many type names",
        text: "Q3 too many type names\n\nThe declarations of a unit export more than 1,048,576 new type names, as by many applications of a functor with many datatypes. Place: 1.1. The reply is `N fault Q3 1.1 too many type names`.\n\nCure: split the unit.\n",
    }
}

fn section_p1() -> Section {
    Section {
        code: "P1",
        meaning: "rule is redundant",
        text: "P1 rule is redundant\n\nThe rules above a rule already match all that it matches. Place: the rule.\n\n```sh\nsmlcheck --warnings project\n```\n```sml\nfn 0xA => 1 | 10 => 2 | _ => 3;\n```\n```text\n1 ok\n  val it : int -> int\n  warning P1 1.15 rule is redundant\n```\nCure: remove the rule, or move it up.\n\n```sh\nsmlcheck --warnings project\n```\n```sml\nfn 10 => 2 | _ => 3;\n```\n```text\n1 ok\n  val it : int -> int\n```\n",
    }
}

fn section_p2() -> Section {
    Section {
        code: "P2",
        meaning: "match not exhaustive",
        text: "P2 match not exhaustive\n\nSome value matches no rule of a `fn` match. Place: the phrase that holds the match.\n\n```sh\nsmlcheck --warnings project\n```\n```sml\nfn true => 1;\n```\n```text\n1 ok\n  val it : bool -> int\n  warning P2 1.1 match not exhaustive\n```\nCure: add rules for the rest.\n\n```sh\nsmlcheck --warnings project\n```\n```sml\nfn true => 1 | false => 0;\n```\n```text\n1 ok\n  val it : bool -> int\n```\n",
    }
}

fn section_p3() -> Section {
    Section {
        code: "P3",
        meaning: "binding not exhaustive",
        text: "P3 binding not exhaustive\n\nSome value doesn't match the pattern of a `val` binding. Place: the pattern.\n\n```sh\nsmlcheck --warnings project\n```\n```sml\nval 1 = 2\n```\n```text\n1 ok\n  warning P3 1.5 binding not exhaustive\n```\nCure: use `case`, with a rule for the rest.\n\n```sh\nsmlcheck --warnings project\n```\n```sml\nval is_one = case 2 of 1 => true | _ => false\n```\n```text\n1 ok\n  val is_one : bool\n```\n",
    }
}
