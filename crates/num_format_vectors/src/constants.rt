//! Each constant of `Locale`. Written by the project `recorded`; do not edit.
//!
//! The names, and the constants in their order, are those of the Rust crate `num-format` 0.4.4.

use crate::asserting::assert_equal;
use num_format::Locale;
use std::test::Fail;

/// The names of all locales, in order.
const NAMES: &str = "\
af af-NA agq ak am ar ar-AE ar-BH ar-DJ ar-DZ ar-EG ar-EH ar-ER ar-IL ar-IQ ar-JO ar-KM ar-KW \
ar-LB ar-LY ar-MA ar-MR ar-OM ar-PS ar-QA ar-SA ar-SD ar-SO ar-SS ar-SY ar-TD ar-TN ar-YE as asa \
ast az az-Cyrl az-Latn bas be bem bez bg bm bn bn-IN bo bo-IN br brx bs bs-Cyrl bs-Latn ca ca-AD \
ca-ES-VALENCIA ca-FR ca-IT ccp ccp-IN ce ceb cgg chr ckb ckb-IR cs cu cy da da-GL dav de de-AT \
de-BE de-CH de-IT de-LI de-LU dje dsb dua dyo dz ebu ee ee-TG el el-CY en en-001 en-150 en-AE \
en-AG en-AI en-AS en-AT en-AU en-BB en-BE en-BI en-BM en-BS en-BW en-BZ en-CA en-CC en-CH en-CK \
en-CM en-CX en-CY en-DE en-DG en-DK en-DM en-ER en-FI en-FJ en-FK en-FM en-GB en-GD en-GG en-GH \
en-GI en-GM en-GU en-GY en-HK en-IE en-IL en-IM en-IN en-IO en-JE en-JM en-KE en-KI en-KN en-KY \
en-LC en-LR en-LS en-MG en-MH en-MO en-MP en-MS en-MT en-MU en-MW en-MY en-NA en-NF en-NG en-NL \
en-NR en-NU en-NZ en-PG en-PH en-PK en-PN en-PR en-PW en-RW en-SB en-SC en-SD en-SE en-SG en-SH \
en-SI en-SL en-SS en-SX en-SZ en-TC en-TK en-TO en-TT en-TV en-TZ en-UG en-UM en-US-POSIX en-VC \
en-VG en-VI en-VU en-WS en-ZA en-ZM en-ZW eo es es-419 es-AR es-BO es-BR es-BZ es-CL es-CO es-CR \
es-CU es-DO es-EA es-EC es-GQ es-GT es-HN es-IC es-MX es-NI es-PA es-PE es-PH es-PR es-PY es-SV \
es-US es-UY es-VE et eu ewo fa fa-AF ff ff-Latn ff-Latn-BF ff-Latn-CM ff-Latn-GH ff-Latn-GM \
ff-Latn-GN ff-Latn-GW ff-Latn-LR ff-Latn-MR ff-Latn-NE ff-Latn-NG ff-Latn-SL fi fil fo fo-DK fr \
fr-BE fr-BF fr-BI fr-BJ fr-BL fr-CA fr-CD fr-CF fr-CG fr-CH fr-CI fr-CM fr-DJ fr-DZ fr-GA fr-GF \
fr-GN fr-GP fr-GQ fr-HT fr-KM fr-LU fr-MA fr-MC fr-MF fr-MG fr-ML fr-MQ fr-MR fr-MU fr-NC fr-NE \
fr-PF fr-PM fr-RE fr-RW fr-SC fr-SN fr-SY fr-TD fr-TG fr-TN fr-VU fr-WF fr-YT fur fy ga ga-GB gd \
gl gsw gsw-FR gsw-LI gu guz gv ha ha-GH ha-NE haw he hi hr hr-BA hsb hu hy ia id ig ii is it \
it-CH it-SM it-VA ja jgo jmc jv ka kab kam kde kea khq ki kk kkj kl kln km kn ko ko-KP kok ks \
ksb ksf ksh ku kw ky lag lb lg lkt ln ln-AO ln-CF ln-CG lo lrc lrc-IQ lt lu luo luy lv mas \
mas-TZ mer mfe mg mgh mgo mi mk ml mn mr ms ms-BN ms-SG mt mua my mzn naq nb nb-SJ nd nds nds-NL \
ne ne-IN nl nl-AW nl-BE nl-BQ nl-CW nl-SR nl-SX nmg nn nnh nus nyn om om-KE or os os-RU pa \
pa-Arab pa-Guru pl prg ps ps-PK pt pt-AO pt-CH pt-CV pt-GQ pt-GW pt-LU pt-MO pt-MZ pt-PT pt-ST \
pt-TL qu qu-BO qu-EC rm rn ro ro-MD rof root ru ru-BY ru-KG ru-KZ ru-MD ru-UA rw rwk sah saq sbp \
sd se se-FI se-SE seh ses sg shi shi-Latn shi-Tfng si sk sl smn sn so so-DJ so-ET so-KE sq sq-MK \
sq-XK sr sr-Cyrl sr-Cyrl-BA sr-Cyrl-ME sr-Cyrl-XK sr-Latn sr-Latn-BA sr-Latn-ME sr-Latn-XK sv \
sv-AX sv-FI sw sw-CD sw-KE sw-UG ta ta-LK ta-MY ta-SG te teo teo-KE tg th ti ti-ER tk to tr \
tr-CY tt twq tzm ug uk ur ur-IN uz uz-Arab uz-Cyrl uz-Latn vai vai-Latn vai-Vaii vi vo vun wae \
wo xh xog yav yi yo yo-BJ yue yue-Hans yue-Hant zgh zh zh-Hans zh-Hans-HK zh-Hans-MO zh-Hans-SG \
zh-Hant zh-Hant-HK zh-Hant-MO zu";

/// The locale that a name finds is the constant of that place of the table.
#[test]
fn each_name_has_its_constant(rt: HostRuntime) -> Result<(), Fail> {
    for (place, name) in NAMES.split(' ').enumerate() {
        assert_equal(&rt, place_of(Locale::from_name(name)?), Some(place));
    }
    Ok(())
}

/// The place in the table of the constant that the locale is.
fn place_of(locale: Locale) -> Option<usize> {
    from_af_to_cgg(locale)
        .or(from_chr_to_en_gm(locale))
        .or(from_en_gu_to_en_vu(locale))
        .or(from_en_ws_to_fr_cf(locale))
        .or(from_fr_cg_to_ii(locale))
        .or(from_is_to_mt(locale))
        .or(from_mua_to_rwk(locale))
        .or(from_sah_to_uz(locale))
        .or(from_uz_arab_to_zu(locale))
}

#[rattlefmt::skip]
fn from_af_to_cgg(locale: Locale) -> Option<usize> {
    Some(match locale {
        Locale::af => 0, Locale::af_NA => 1, Locale::agq => 2, Locale::ak => 3, Locale::am => 4,
        Locale::ar => 5, Locale::ar_AE => 6, Locale::ar_BH => 7, Locale::ar_DJ => 8, Locale::ar_DZ => 9,
        Locale::ar_EG => 10, Locale::ar_EH => 11, Locale::ar_ER => 12, Locale::ar_IL => 13,
        Locale::ar_IQ => 14, Locale::ar_JO => 15, Locale::ar_KM => 16, Locale::ar_KW => 17,
        Locale::ar_LB => 18, Locale::ar_LY => 19, Locale::ar_MA => 20, Locale::ar_MR => 21,
        Locale::ar_OM => 22, Locale::ar_PS => 23, Locale::ar_QA => 24, Locale::ar_SA => 25,
        Locale::ar_SD => 26, Locale::ar_SO => 27, Locale::ar_SS => 28, Locale::ar_SY => 29,
        Locale::ar_TD => 30, Locale::ar_TN => 31, Locale::ar_YE => 32, Locale::as_ => 33,
        Locale::asa => 34, Locale::ast => 35, Locale::az => 36, Locale::az_Cyrl => 37,
        Locale::az_Latn => 38, Locale::bas => 39, Locale::be => 40, Locale::bem => 41,
        Locale::bez => 42, Locale::bg => 43, Locale::bm => 44, Locale::bn => 45, Locale::bn_IN => 46,
        Locale::bo => 47, Locale::bo_IN => 48, Locale::br => 49, Locale::brx => 50, Locale::bs => 51,
        Locale::bs_Cyrl => 52, Locale::bs_Latn => 53, Locale::ca => 54, Locale::ca_AD => 55,
        Locale::ca_ES_VALENCIA => 56, Locale::ca_FR => 57, Locale::ca_IT => 58, Locale::ccp => 59,
        Locale::ccp_IN => 60, Locale::ce => 61, Locale::ceb => 62, Locale::cgg => 63,
        _ => return None,
    })
}

#[rattlefmt::skip]
fn from_chr_to_en_gm(locale: Locale) -> Option<usize> {
    Some(match locale {
        Locale::chr => 64, Locale::ckb => 65, Locale::ckb_IR => 66, Locale::cs => 67, Locale::cu => 68,
        Locale::cy => 69, Locale::da => 70, Locale::da_GL => 71, Locale::dav => 72, Locale::de => 73,
        Locale::de_AT => 74, Locale::de_BE => 75, Locale::de_CH => 76, Locale::de_IT => 77,
        Locale::de_LI => 78, Locale::de_LU => 79, Locale::dje => 80, Locale::dsb => 81,
        Locale::dua => 82, Locale::dyo => 83, Locale::dz => 84, Locale::ebu => 85, Locale::ee => 86,
        Locale::ee_TG => 87, Locale::el => 88, Locale::el_CY => 89, Locale::en => 90,
        Locale::en_001 => 91, Locale::en_150 => 92, Locale::en_AE => 93, Locale::en_AG => 94,
        Locale::en_AI => 95, Locale::en_AS => 96, Locale::en_AT => 97, Locale::en_AU => 98,
        Locale::en_BB => 99, Locale::en_BE => 100, Locale::en_BI => 101, Locale::en_BM => 102,
        Locale::en_BS => 103, Locale::en_BW => 104, Locale::en_BZ => 105, Locale::en_CA => 106,
        Locale::en_CC => 107, Locale::en_CH => 108, Locale::en_CK => 109, Locale::en_CM => 110,
        Locale::en_CX => 111, Locale::en_CY => 112, Locale::en_DE => 113, Locale::en_DG => 114,
        Locale::en_DK => 115, Locale::en_DM => 116, Locale::en_ER => 117, Locale::en_FI => 118,
        Locale::en_FJ => 119, Locale::en_FK => 120, Locale::en_FM => 121, Locale::en_GB => 122,
        Locale::en_GD => 123, Locale::en_GG => 124, Locale::en_GH => 125, Locale::en_GI => 126,
        Locale::en_GM => 127,
        _ => return None,
    })
}

#[rattlefmt::skip]
fn from_en_gu_to_en_vu(locale: Locale) -> Option<usize> {
    Some(match locale {
        Locale::en_GU => 128, Locale::en_GY => 129, Locale::en_HK => 130, Locale::en_IE => 131,
        Locale::en_IL => 132, Locale::en_IM => 133, Locale::en_IN => 134, Locale::en_IO => 135,
        Locale::en_JE => 136, Locale::en_JM => 137, Locale::en_KE => 138, Locale::en_KI => 139,
        Locale::en_KN => 140, Locale::en_KY => 141, Locale::en_LC => 142, Locale::en_LR => 143,
        Locale::en_LS => 144, Locale::en_MG => 145, Locale::en_MH => 146, Locale::en_MO => 147,
        Locale::en_MP => 148, Locale::en_MS => 149, Locale::en_MT => 150, Locale::en_MU => 151,
        Locale::en_MW => 152, Locale::en_MY => 153, Locale::en_NA => 154, Locale::en_NF => 155,
        Locale::en_NG => 156, Locale::en_NL => 157, Locale::en_NR => 158, Locale::en_NU => 159,
        Locale::en_NZ => 160, Locale::en_PG => 161, Locale::en_PH => 162, Locale::en_PK => 163,
        Locale::en_PN => 164, Locale::en_PR => 165, Locale::en_PW => 166, Locale::en_RW => 167,
        Locale::en_SB => 168, Locale::en_SC => 169, Locale::en_SD => 170, Locale::en_SE => 171,
        Locale::en_SG => 172, Locale::en_SH => 173, Locale::en_SI => 174, Locale::en_SL => 175,
        Locale::en_SS => 176, Locale::en_SX => 177, Locale::en_SZ => 178, Locale::en_TC => 179,
        Locale::en_TK => 180, Locale::en_TO => 181, Locale::en_TT => 182, Locale::en_TV => 183,
        Locale::en_TZ => 184, Locale::en_UG => 185, Locale::en_UM => 186, Locale::en_US_POSIX => 187,
        Locale::en_VC => 188, Locale::en_VG => 189, Locale::en_VI => 190, Locale::en_VU => 191,
        _ => return None,
    })
}

#[rattlefmt::skip]
fn from_en_ws_to_fr_cf(locale: Locale) -> Option<usize> {
    Some(match locale {
        Locale::en_WS => 192, Locale::en_ZA => 193, Locale::en_ZM => 194, Locale::en_ZW => 195,
        Locale::eo => 196, Locale::es => 197, Locale::es_419 => 198, Locale::es_AR => 199,
        Locale::es_BO => 200, Locale::es_BR => 201, Locale::es_BZ => 202, Locale::es_CL => 203,
        Locale::es_CO => 204, Locale::es_CR => 205, Locale::es_CU => 206, Locale::es_DO => 207,
        Locale::es_EA => 208, Locale::es_EC => 209, Locale::es_GQ => 210, Locale::es_GT => 211,
        Locale::es_HN => 212, Locale::es_IC => 213, Locale::es_MX => 214, Locale::es_NI => 215,
        Locale::es_PA => 216, Locale::es_PE => 217, Locale::es_PH => 218, Locale::es_PR => 219,
        Locale::es_PY => 220, Locale::es_SV => 221, Locale::es_US => 222, Locale::es_UY => 223,
        Locale::es_VE => 224, Locale::et => 225, Locale::eu => 226, Locale::ewo => 227,
        Locale::fa => 228, Locale::fa_AF => 229, Locale::ff => 230, Locale::ff_Latn => 231,
        Locale::ff_Latn_BF => 232, Locale::ff_Latn_CM => 233, Locale::ff_Latn_GH => 234,
        Locale::ff_Latn_GM => 235, Locale::ff_Latn_GN => 236, Locale::ff_Latn_GW => 237,
        Locale::ff_Latn_LR => 238, Locale::ff_Latn_MR => 239, Locale::ff_Latn_NE => 240,
        Locale::ff_Latn_NG => 241, Locale::ff_Latn_SL => 242, Locale::fi => 243, Locale::fil => 244,
        Locale::fo => 245, Locale::fo_DK => 246, Locale::fr => 247, Locale::fr_BE => 248,
        Locale::fr_BF => 249, Locale::fr_BI => 250, Locale::fr_BJ => 251, Locale::fr_BL => 252,
        Locale::fr_CA => 253, Locale::fr_CD => 254, Locale::fr_CF => 255,
        _ => return None,
    })
}

#[rattlefmt::skip]
fn from_fr_cg_to_ii(locale: Locale) -> Option<usize> {
    Some(match locale {
        Locale::fr_CG => 256, Locale::fr_CH => 257, Locale::fr_CI => 258, Locale::fr_CM => 259,
        Locale::fr_DJ => 260, Locale::fr_DZ => 261, Locale::fr_GA => 262, Locale::fr_GF => 263,
        Locale::fr_GN => 264, Locale::fr_GP => 265, Locale::fr_GQ => 266, Locale::fr_HT => 267,
        Locale::fr_KM => 268, Locale::fr_LU => 269, Locale::fr_MA => 270, Locale::fr_MC => 271,
        Locale::fr_MF => 272, Locale::fr_MG => 273, Locale::fr_ML => 274, Locale::fr_MQ => 275,
        Locale::fr_MR => 276, Locale::fr_MU => 277, Locale::fr_NC => 278, Locale::fr_NE => 279,
        Locale::fr_PF => 280, Locale::fr_PM => 281, Locale::fr_RE => 282, Locale::fr_RW => 283,
        Locale::fr_SC => 284, Locale::fr_SN => 285, Locale::fr_SY => 286, Locale::fr_TD => 287,
        Locale::fr_TG => 288, Locale::fr_TN => 289, Locale::fr_VU => 290, Locale::fr_WF => 291,
        Locale::fr_YT => 292, Locale::fur => 293, Locale::fy => 294, Locale::ga => 295,
        Locale::ga_GB => 296, Locale::gd => 297, Locale::gl => 298, Locale::gsw => 299,
        Locale::gsw_FR => 300, Locale::gsw_LI => 301, Locale::gu => 302, Locale::guz => 303,
        Locale::gv => 304, Locale::ha => 305, Locale::ha_GH => 306, Locale::ha_NE => 307,
        Locale::haw => 308, Locale::he => 309, Locale::hi => 310, Locale::hr => 311,
        Locale::hr_BA => 312, Locale::hsb => 313, Locale::hu => 314, Locale::hy => 315,
        Locale::ia => 316, Locale::id => 317, Locale::ig => 318, Locale::ii => 319,
        _ => return None,
    })
}

#[rattlefmt::skip]
fn from_is_to_mt(locale: Locale) -> Option<usize> {
    Some(match locale {
        Locale::is => 320, Locale::it => 321, Locale::it_CH => 322, Locale::it_SM => 323,
        Locale::it_VA => 324, Locale::ja => 325, Locale::jgo => 326, Locale::jmc => 327,
        Locale::jv => 328, Locale::ka => 329, Locale::kab => 330, Locale::kam => 331,
        Locale::kde => 332, Locale::kea => 333, Locale::khq => 334, Locale::ki => 335,
        Locale::kk => 336, Locale::kkj => 337, Locale::kl => 338, Locale::kln => 339, Locale::km => 340,
        Locale::kn => 341, Locale::ko => 342, Locale::ko_KP => 343, Locale::kok => 344,
        Locale::ks => 345, Locale::ksb => 346, Locale::ksf => 347, Locale::ksh => 348,
        Locale::ku => 349, Locale::kw => 350, Locale::ky => 351, Locale::lag => 352, Locale::lb => 353,
        Locale::lg => 354, Locale::lkt => 355, Locale::ln => 356, Locale::ln_AO => 357,
        Locale::ln_CF => 358, Locale::ln_CG => 359, Locale::lo => 360, Locale::lrc => 361,
        Locale::lrc_IQ => 362, Locale::lt => 363, Locale::lu => 364, Locale::luo => 365,
        Locale::luy => 366, Locale::lv => 367, Locale::mas => 368, Locale::mas_TZ => 369,
        Locale::mer => 370, Locale::mfe => 371, Locale::mg => 372, Locale::mgh => 373,
        Locale::mgo => 374, Locale::mi => 375, Locale::mk => 376, Locale::ml => 377, Locale::mn => 378,
        Locale::mr => 379, Locale::ms => 380, Locale::ms_BN => 381, Locale::ms_SG => 382,
        Locale::mt => 383,
        _ => return None,
    })
}

#[rattlefmt::skip]
fn from_mua_to_rwk(locale: Locale) -> Option<usize> {
    Some(match locale {
        Locale::mua => 384, Locale::my => 385, Locale::mzn => 386, Locale::naq => 387,
        Locale::nb => 388, Locale::nb_SJ => 389, Locale::nd => 390, Locale::nds => 391,
        Locale::nds_NL => 392, Locale::ne => 393, Locale::ne_IN => 394, Locale::nl => 395,
        Locale::nl_AW => 396, Locale::nl_BE => 397, Locale::nl_BQ => 398, Locale::nl_CW => 399,
        Locale::nl_SR => 400, Locale::nl_SX => 401, Locale::nmg => 402, Locale::nn => 403,
        Locale::nnh => 404, Locale::nus => 405, Locale::nyn => 406, Locale::om => 407,
        Locale::om_KE => 408, Locale::or => 409, Locale::os => 410, Locale::os_RU => 411,
        Locale::pa => 412, Locale::pa_Arab => 413, Locale::pa_Guru => 414, Locale::pl => 415,
        Locale::prg => 416, Locale::ps => 417, Locale::ps_PK => 418, Locale::pt => 419,
        Locale::pt_AO => 420, Locale::pt_CH => 421, Locale::pt_CV => 422, Locale::pt_GQ => 423,
        Locale::pt_GW => 424, Locale::pt_LU => 425, Locale::pt_MO => 426, Locale::pt_MZ => 427,
        Locale::pt_PT => 428, Locale::pt_ST => 429, Locale::pt_TL => 430, Locale::qu => 431,
        Locale::qu_BO => 432, Locale::qu_EC => 433, Locale::rm => 434, Locale::rn => 435,
        Locale::ro => 436, Locale::ro_MD => 437, Locale::rof => 438, Locale::root => 439,
        Locale::ru => 440, Locale::ru_BY => 441, Locale::ru_KG => 442, Locale::ru_KZ => 443,
        Locale::ru_MD => 444, Locale::ru_UA => 445, Locale::rw => 446, Locale::rwk => 447,
        _ => return None,
    })
}

#[rattlefmt::skip]
fn from_sah_to_uz(locale: Locale) -> Option<usize> {
    Some(match locale {
        Locale::sah => 448, Locale::saq => 449, Locale::sbp => 450, Locale::sd => 451,
        Locale::se => 452, Locale::se_FI => 453, Locale::se_SE => 454, Locale::seh => 455,
        Locale::ses => 456, Locale::sg => 457, Locale::shi => 458, Locale::shi_Latn => 459,
        Locale::shi_Tfng => 460, Locale::si => 461, Locale::sk => 462, Locale::sl => 463,
        Locale::smn => 464, Locale::sn => 465, Locale::so => 466, Locale::so_DJ => 467,
        Locale::so_ET => 468, Locale::so_KE => 469, Locale::sq => 470, Locale::sq_MK => 471,
        Locale::sq_XK => 472, Locale::sr => 473, Locale::sr_Cyrl => 474, Locale::sr_Cyrl_BA => 475,
        Locale::sr_Cyrl_ME => 476, Locale::sr_Cyrl_XK => 477, Locale::sr_Latn => 478,
        Locale::sr_Latn_BA => 479, Locale::sr_Latn_ME => 480, Locale::sr_Latn_XK => 481,
        Locale::sv => 482, Locale::sv_AX => 483, Locale::sv_FI => 484, Locale::sw => 485,
        Locale::sw_CD => 486, Locale::sw_KE => 487, Locale::sw_UG => 488, Locale::ta => 489,
        Locale::ta_LK => 490, Locale::ta_MY => 491, Locale::ta_SG => 492, Locale::te => 493,
        Locale::teo => 494, Locale::teo_KE => 495, Locale::tg => 496, Locale::th => 497,
        Locale::ti => 498, Locale::ti_ER => 499, Locale::tk => 500, Locale::to => 501,
        Locale::tr => 502, Locale::tr_CY => 503, Locale::tt => 504, Locale::twq => 505,
        Locale::tzm => 506, Locale::ug => 507, Locale::uk => 508, Locale::ur => 509,
        Locale::ur_IN => 510, Locale::uz => 511,
        _ => return None,
    })
}

#[rattlefmt::skip]
fn from_uz_arab_to_zu(locale: Locale) -> Option<usize> {
    Some(match locale {
        Locale::uz_Arab => 512, Locale::uz_Cyrl => 513, Locale::uz_Latn => 514, Locale::vai => 515,
        Locale::vai_Latn => 516, Locale::vai_Vaii => 517, Locale::vi => 518, Locale::vo => 519,
        Locale::vun => 520, Locale::wae => 521, Locale::wo => 522, Locale::xh => 523,
        Locale::xog => 524, Locale::yav => 525, Locale::yi => 526, Locale::yo => 527,
        Locale::yo_BJ => 528, Locale::yue => 529, Locale::yue_Hans => 530, Locale::yue_Hant => 531,
        Locale::zgh => 532, Locale::zh => 533, Locale::zh_Hans => 534, Locale::zh_Hans_HK => 535,
        Locale::zh_Hans_MO => 536, Locale::zh_Hans_SG => 537, Locale::zh_Hant => 538,
        Locale::zh_Hant_HK => 539, Locale::zh_Hant_MO => 540, Locale::zu => 541,
        _ => return None,
    })
}
