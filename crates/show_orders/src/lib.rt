// Orders that somebody hands in.
#![tactic(auto)]

use job::laying::RouteJob;
use samples::{chains, letters, lines};
use std::io;

fn try_list(rt: &impl Print, label: &[u8], job: RouteJob, order: &[u8]) -> io::Result<()> {
    lines::fired(rt, label, trying::trying::try_order(&job, order))
}

fn show_a(rt: &impl Print) -> io::Result<()> {
    let a = letters::a();
    let x = a.job();
    try_list(rt, b"try 2 1 3", x, &[2, 1, 3])?;
    try_list(rt, b"try 1 2 3", x, &[1, 2, 3])?;
    try_list(rt, b"try 2 3 1", x, &[2, 3, 1])?;
    try_list(rt, b"try nothing", x, &[])?;
    try_list(rt, b"try 2 1", x, &[2, 1])?;
    try_list(rt, b"try 2 1 3 3", x, &[2, 1, 3, 3])?;
    try_list(rt, b"try 2 2 3", x, &[2, 2, 3])?;
    try_list(rt, b"try 0 1 2", x, &[0, 1, 2])?;
    try_list(rt, b"try 2 1 255", x, &[2, 1, 255])?;
    try_list(rt, b"try 300 bytes", x, &[2u8; 300])
}

fn show_17(rt: &impl Print) -> io::Result<()> {
    let job = RouteJob {
        old: &chains::line(17),
        new: &chains::turned(17),
        done: &chains::names(),
    };
    try_list(rt, b"try 17 kept", job, &[1])
}

pub fn show(rt: &impl Print) -> io::Result<()> {
    show_a(rt)?;
    let straight = letters::straight();
    let x = straight.job();
    try_list(rt, b"try the straight list", x, &[1, 2, 3])?;
    try_list(rt, b"try what is kept of a straight job", x, &[3, 2, 1])?;
    try_list(rt, b"try F", letters::f().job(), &[2])?;
    try_list(rt, b"try E, written", letters::e_written().job(), &[2, 1])?;
    show_17(rt)?;
    try_list(rt, b"try H", letters::h().job(), &[])
}

// 01's examples, and a job that has gone round twice: the order that judge gives, or where it gives none, orders of all
// that is done.
pub fn show_letters(rt: &impl Print) -> io::Result<()> {
    try_list(rt, b"try 2 1 3 of A", letters::a().job(), &[2, 1, 3])?;
    try_list(rt, b"try nothing of B", letters::b().job(), &[])?;
    try_list(rt, b"try 1 of C", letters::c().job(), &[1])?;
    try_list(rt, b"try 1 2 of D", letters::d().job(), &[1, 2])?;
    try_list(rt, b"try 2 1 of D", letters::d().job(), &[2, 1])?;
    try_list(rt, b"try 1 2 of E", letters::e().job(), &[1, 2])?;
    try_list(
        rt,
        b"try 1 2 of E, written",
        letters::e_written().job(),
        &[1, 2],
    )?;
    try_list(rt, b"try 2 of F", letters::f().job(), &[2])?;
    try_list(rt, b"try 1 of G", letters::g().job(), &[1])?;
    try_list(rt, b"try 1 of H", letters::h().job(), &[1])?;
    try_list(rt, b"try 1 of I", letters::i().job(), &[1])?;
    try_list(rt, b"try 1 2 of J", letters::j().job(), &[1, 2])?;
    try_list(rt, b"try 1 2 3 of K", letters::k().job(), &[1, 2, 3])?;
    try_list(rt, b"try nothing of L", letters::l().job(), &[])?;
    try_list(
        rt,
        b"try 1 2 3 4 of twice round",
        letters::round().job(),
        &[1, 2, 3, 4],
    )?;
    try_list(
        rt,
        b"try 3 4 of twice round, moved",
        letters::round_moved().job(),
        &[3, 4],
    )
}
