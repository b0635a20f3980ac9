// Which module answers a kind. A new kind is a line in each of the three lists here, and a function of its wing's module that works it out and puts its lines: it may use the
// option, the sizes, the codes of both factors, and the readings.
use crate::cases::Case;
use crate::lines::Out;
use crate::{lines_matrix, lines_oneway, lines_repeated, lines_sheet, lines_stats, lines_twoway};
use oneway::AnovaKind;

#[derive(Clone, Copy)]
pub enum Kind {
    Mean,
    Variance,
    Fisher,
    Welch,
    TwoWay,
    Repeated,
    Study,
    Roots,
    View,
    Sheet,
    Solve,
    Inverse,
    Determinant,
    Eigenvalues,
    Qr,
    Orthonormal,
    Power,
    Levene,
    SheetLevene,
    Written,
    SolveSkips,
    InverseSkips,
    TwoWaySkips,
}

// A number that is none of a kind.
#[derive(Clone, Copy)]
pub struct Unknown;

impl TryFrom<u32> for Kind {
    type Error = Unknown;

    fn try_from(number: u32) -> Result<Kind, Unknown> {
        match number {
            1 => Ok(Kind::Mean),
            2 => Ok(Kind::Variance),
            3 => Ok(Kind::Fisher),
            4 => Ok(Kind::Welch),
            5 => Ok(Kind::TwoWay),
            6 => Ok(Kind::Repeated),
            7 => Ok(Kind::Study),
            8 => Ok(Kind::Roots),
            9 => Ok(Kind::View),
            10 => Ok(Kind::Sheet),
            11 => Ok(Kind::Solve),
            12 => Ok(Kind::Inverse),
            13 => Ok(Kind::Determinant),
            14 => Ok(Kind::Eigenvalues),
            15 => Ok(Kind::Qr),
            16 => Ok(Kind::Orthonormal),
            17 => Ok(Kind::Power),
            18 => Ok(Kind::Levene),
            19 => Ok(Kind::SheetLevene),
            21 => Ok(Kind::Written),
            23 => Ok(Kind::SolveSkips),
            24 => Ok(Kind::InverseSkips),
            25 => Ok(Kind::TwoWaySkips),
            _ => Err(Unknown),
        }
    }
}

pub fn answer(out: &mut Out, kind: Kind, case: &Case) {
    match kind {
        Kind::Mean => lines_stats::figure(out, b"mean0\n", stats::mean(case.readings)),
        Kind::Variance => lines_stats::figure(out, b"variance0\n", stats::variance(case.readings)),
        Kind::Fisher => lines_oneway::analysis(out, AnovaKind::Fisher, case),
        Kind::Welch => lines_oneway::analysis(out, AnovaKind::Welch, case),
        Kind::Levene => lines_oneway::analysis(out, AnovaKind::Levene, case),
        Kind::TwoWay => lines_twoway::two_way(out, case, false),
        Kind::TwoWaySkips => lines_twoway::two_way(out, case, true),
        Kind::Study => lines_twoway::study(out, case),
        Kind::Repeated => lines_repeated::repeated_measures(out, case),
        Kind::Roots => lines_stats::roots(out, case.readings),
        Kind::View => lines_oneway::view(out, case),
        Kind::Sheet => lines_sheet::sheet(out, case, false),
        Kind::SheetLevene => lines_sheet::sheet(out, case, true),
        Kind::Written => lines_sheet::written(out, case),
        Kind::Solve => lines_matrix::solve(out, case, false),
        Kind::SolveSkips => lines_matrix::solve(out, case, true),
        Kind::Inverse => lines_matrix::inverse(out, case, false),
        Kind::InverseSkips => lines_matrix::inverse(out, case, true),
        Kind::Determinant => lines_matrix::determinant(out, case),
        Kind::Eigenvalues => lines_matrix::eigenvalues(out, case),
        Kind::Qr => lines_matrix::qr(out, case),
        Kind::Orthonormal => lines_matrix::orthonormalize(out, case),
        Kind::Power => lines_stats::power(out, case),
    }
}
