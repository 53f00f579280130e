//! Each derived form from its text to its bare tree, worked out by hand (the Definition, appendix A). A hidden variable
//! is shown as it is: a space, then its number.

use crate::derived_forms::show::expect_all;
use std::test::Fail;

#[test]
fn forms_from_text(rt: HostRuntime) -> Result<(), Fail> {
    expect_all(
        &rt,
        &[
            ("val x = ()", "1val 5x=9(); "),
            ("val x = #a y", "1val 5x=9<9fn|9 9{a=9 0,...}=>9 0 12y>; "),
            (
                "val x = case y of z => w",
                "1val 5x=9<9[9fn|19 19z=>24w] 14y>; ",
            ),
            (
                "val x = if a then b else c",
                "1val 5x=9<9[9fn|9 9true=>19b|9 9false=>26c] 12a>; ",
            ),
            (
                "val x = a orelse b",
                "1val 5x=9<9[9fn|9 9true=>9true|9 9false=>18b] 9a>; ",
            ),
            (
                "val x = a andalso b",
                "1val 5x=9<9[9fn|9 9true=>19b|9 9false=>9false] 9a>; ",
            ),
            ("val x = (a; b)", "1val 5x=9<9[9fn|9 9_=>13b] 10a>; "),
            (
                "val x = let val y = a in b; c end",
                "1val 5x=9let 13val 17y=21a; in 26<26[26fn|26 26_=>29c] 26b>; ",
            ),
            (
                "val x = while a do b",
                "1val 5x=9let 9val rec 9 0=9fn|9 9()=>9<9[9fn|9 9true=>9<9[9fn|9 9_=>9<9 0 9()>] 20b>|9 9false=>9()] 15a>; in 9<9 0 9()>; ",
            ),
            (
                "val x = [a, b]",
                "1val 5x=9<9:: 9(10a,9<9:: 9(13b,9nil,)>,)>; ",
            ),
            ("val x = a + b", "1val 5x=9<11+ 9(9a,13b,)>; "),
            ("f x", "1val 1it=1<1f 3x>; "),
            ("val {x} = y", "1val 5{x=6x,}=11y; "),
            ("val {x : t as p} = y", "1val 5{x=6x:10()t as 15p,}=20y; "),
            (
                "val [p, q] = x",
                "1val 5<:: 5(6p,5<:: 5(9q,5nil,)>,)>=14x; ",
            ),
            ("val () = x", "1val 5()=10x; "),
            ("val p :: q = x", "1val 5<@7:: 5(5p,10q,)>=14x; "),
            (
                "fun f p = a | f q = b",
                "1val rec 5f=5fn|5 5 1=>5<5[5fn|5 7p=>11a|15 17q=>21b] 5 1>; ",
            ),
            (
                "fun f p q = a",
                "1val rec 5f=5fn|5 5 1=>5fn|5 5 2=>5<5[5fn|5 5(7p,9q,)=>13a] 5(5 1,5 2,)>; ",
            ),
            (
                "fun a + b = c",
                "1val rec 5+=5fn|5 5 1=>5<5[5fn|5 5(5a,9b,)=>13c] 5 1>; ",
            ),
            ("structure A :> S = E", "1structure A=11E:>16S; "),
            (
                "structure A = F (open B)",
                "1structure A=15F(15struct 18open @23B; end); ",
            ),
            ("functor F (X : S) : R = E", "1functor F(X:16S)=9E:21R; "),
            (
                "functor F (include S) = E",
                "1functor F( 0:9sig 12include 20S; end)=9let 9open  0; in E; ",
            ),
            (
                "signature S = sig include A B end",
                "1signature S=15sig 19include 27A; 19include 29B; end; ",
            ),
            (
                "signature S = T where type t = a and type u = b",
                "1signature S=151515T where t=32()a where u=47()b; ",
            ),
        ],
    )
}
