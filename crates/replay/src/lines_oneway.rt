// Printed lines of one-way analysis: Fisher's, Welch's and Levene's, and the view of one group.
use crate::cases::Case;
use crate::lines::Out;
use oneway::AnovaKind;
use results::OneWayAnovaResult;

pub fn analysis(out: &mut Out, kind: AnovaKind, case: &Case) {
    let r = oneway::one_way_anova(case.readings, case.sizes, kind);
    report(out, kind, r);
}

// The lines of an answer: the numbers that the kind's form asks for, and the groups.
pub fn report(out: &mut Out, kind: AnovaKind, r: OneWayAnovaResult) {
    if let Err(refusal) = r.refusal.check() {
        return out.refused(refusal);
    }
    let form: &[u8] = match kind {
        AnovaKind::Fisher => b"fisherAB\nss012\ndf34\nms56\nf7\ngrand8\n",
        AnovaKind::Welch => b"welchAB\ndf34\nf7\n",
        AnovaKind::Levene => b"leveneAB\nss012\ndf34\nms56\nf7\ngrand8\n",
    };
    let doubles = [
        r.ss_between,
        r.ss_within,
        r.ss_total,
        r.df_between,
        r.df_within,
        r.ms_between,
        r.ms_within,
        r.statistic,
        r.grand_mean,
    ];
    out.form(form, &[r.n_groups as u64, r.n_total as u64], &doubles);
    if base::MOST_GROUPS < r.n_groups {
        return;
    }
    out.put(b"sizes");
    for size in &r.group_sizes[..r.n_groups] {
        out.count(*size as u64);
    }
    out.firsts(b"\nmeans@\n", r.n_groups, &r.group_means);
}

// The view of the group that the option says.
pub fn view(out: &mut Out, case: &Case) {
    let g = case.option as usize;
    match oneway_checks::group_refusal(case.readings, case.sizes, g) {
        Err(r) => out.refused(r),
        Ok(()) => {
            let group = oneway_checks::group(case.readings, case.sizes, g);
            out.form(b"viewA@\n", &[group.len() as u64], group);
        }
    }
}
